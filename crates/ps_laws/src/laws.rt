//! Laws of the definitions: each is the contract of a function that does nothing.

ghost use Rattle.std.specs.Prelude.{◌≡◌, ◌+◌, ℕ, List, take, map, slice_get, Contains, Some, None};
ghost use Rattle.ps_tokens.specs.declared.object.Body.TheVariants.{Dict};
ghost use Rattle.ps_tokens.specs.Dictionaries.{Ascend, key_names, last_keys_of, last_of, name_of};
ghost use Rattle.ps_laws.specs.Entries.{Entry, HasEntries, NoneNamed, IsLastNamed};
ghost use Rattle.ps_tokens.specs.declared.token.Token.{Token};
ghost use Rattle.ps_tokens.specs.declared.faults.JobFault.{JobFault};
ghost use Rattle.ps_tokens.specs.Tokens.{tokens_of};
ghost use Rattle.ps_tokens.specs.declared.object.Object.{Object};
ghost use Rattle.ps_tokens.specs.Objects.{objects_of};
ghost use Rattle.ps_laws.specs.Spells.{Spells, Breaks};
ghost use Rattle.ps_laws.specs.Writes.{WritesOut};
ghost use Rattle.ps_laws.specs.Kinds.{kinds_written, begun_at, begun_as};
ghost use Rattle.ps_laws.specs.Nests.{AreNested};
ghost use Rattle.ps_laws.specs.Firsts.{LeavesOpen, Misplaced};
ghost use Rattle.ps_tokens.specs.declared.brackets.Bracket.{Bracket};
ghost use Rattle.ps_tokens.specs.Brackets.{brackets_after};

/// If bytes encode tokens, these tokens are read.
pub fn spelled_is_read()
    ensures { (bytes : List ℕ) (tokens : List Token) → Spells bytes tokens
        → tokens_of bytes ≡ Ok tokens }
{}

/// The tokens that are read are those that the bytes encode.
pub fn read_is_spelled()
    ensures { (bytes : List ℕ) (tokens : List Token) → tokens_of bytes ≡ Ok tokens
        → Spells bytes tokens }
{}

/// Bytes encode at most one list of tokens.
pub fn one_token_list()
    ensures { (bytes : List ℕ) (a b : List Token) → Spells bytes a → Spells bytes b → a ≡ b }
{}

/// If there is a fault, the bytes before it encode tokens, and neither a gap nor a token stands there.
pub fn fault_is_where_none_stands()
    ensures { (bytes : List ℕ) (fault : JobFault) → tokens_of bytes ≡ Err fault
        → Breaks bytes fault }
{}

/// If the bytes encode tokens up to a place at which neither a gap nor a token stands, that is the fault.
pub fn where_none_stands_is_fault()
    ensures { (bytes : List ℕ) (fault : JobFault) → Breaks bytes fault
        → tokens_of bytes ≡ Err fault }
{}

/// The bytes before a fault encode tokens by themselves.
pub fn prefix_of_fault_is_spelled()
    ensures { (bytes : List ℕ) (fault : JobFault) → tokens_of bytes ≡ Err fault
        → (tokens : List Token) × Spells (take fault.at bytes) tokens }
{}

/// If tokens write out objects, these objects are read.
pub fn written_is_read()
    ensures { (bytes : List ℕ) (tokens : List Token) (objects : List Object)
        → WritesOut bytes objects tokens → objects_of bytes tokens ≡ Ok objects }
{}

/// The objects that are read are those that the tokens write out.
pub fn read_is_written()
    ensures { (bytes : List ℕ) (tokens : List Token) (objects : List Object)
        → objects_of bytes tokens ≡ Ok objects → WritesOut bytes objects tokens }
{}

/// Tokens write out at most one list of objects.
pub fn one_object_list()
    ensures { (bytes : List ℕ) (tokens : List Token) (a b : List Object)
        → WritesOut bytes a tokens → WritesOut bytes b tokens → a ≡ b }
{}

/// The objects that are read, written out in order, each closing token after the last object within its bracket, give
/// the tokens: their kinds, and the offsets and the meanings of those that begin objects. They are nested as a job's
/// objects are.
pub fn objects_write_their_tokens()
    ensures kinds { (bytes : List ℕ) (tokens : List Token) (objects : List Object)
        → objects_of bytes tokens ≡ Ok objects → map (λ t. t.kind) tokens ≡ kinds_written objects }
    ensures places { (bytes : List ℕ) (tokens : List Token) (objects : List Object)
        → objects_of bytes tokens ≡ Ok objects → begun_at tokens ≡ map (λ o. o.at) objects }
    ensures bodies { (bytes : List ℕ) (tokens : List Token) (objects : List Object)
        → objects_of bytes tokens ≡ Ok objects → begun_as bytes tokens ≡ map (λ o. o.body) objects }
    ensures nested { (bytes : List ℕ) (tokens : List Token) (objects : List Object)
        → objects_of bytes tokens ≡ Ok objects → AreNested objects }
{}

/// Tokens of the kinds that nested objects are written with, with their offsets and meanings, are read as these objects.
pub fn written_tokens_are_read()
    ensures { (bytes : List ℕ) (tokens : List Token) (objects : List Object) → AreNested objects
        → map (λ t. t.kind) tokens ≡ kinds_written objects
        → begun_at tokens ≡ map (λ o. o.at) objects
        → begun_as bytes tokens ≡ map (λ o. o.body) objects → objects_of bytes tokens ≡ Ok objects }
{}

/// A fault of tokens is at the first one after which no further tokens could complete the list; or the tokens end
/// within a bracket, and then it is at the innermost that is open.
pub fn object_fault_is_first()
    ensures { (bytes : List ℕ) (tokens : List Token) (fault : JobFault)
        → objects_of bytes tokens ≡ Err fault → Misplaced bytes tokens fault }
{}

/// If the first misplaced token is misplaced by a fault (`Misplaced`), that fault is the one of the tokens.
pub fn first_misplaced_is_object_fault()
    ensures { (bytes : List ℕ) (tokens : List Token) (fault : JobFault)
        → Misplaced bytes tokens fault → objects_of bytes tokens ≡ Err fault }
{}

/// The brackets that are read as open are those that the tokens leave open.
pub fn open_brackets_are_left_open()
    ensures left { (bytes : List ℕ) (tokens : List Token) (brackets : List Bracket)
        → brackets_after bytes tokens ≡ Ok brackets → LeavesOpen bytes brackets tokens }
    ensures found { (bytes : List ℕ) (tokens : List Token) (brackets : List Bracket)
        → LeavesOpen bytes brackets tokens → brackets_after bytes tokens ≡ Ok brackets }
{}

/// Each dictionary among nested objects has entries, which are the objects within it.
pub fn dictionaries_have_entries()
    ensures { (objects : List Object) (place : ℕ) (object : Object) → AreNested objects
        → slice_get objects place ≡ Some object → object.body ≡ Dict
        → (entries : List Entry) × HasEntries objects place entries }
{}

/// Looking up a name gives the value of the last entry of that name, and nothing where no entry has it.
pub fn last_is_of_the_last_entry()
    ensures found { (objects : List Object) (dict value : ℕ) (entries : List Entry) (name : List ℕ)
        → HasEntries objects dict entries
        → last_of objects dict name ≡ Some value → IsLastNamed name value entries }
    ensures given { (objects : List Object) (dict value : ℕ) (entries : List Entry) (name : List ℕ)
        → HasEntries objects dict entries
        → IsLastNamed name value entries → last_of objects dict name ≡ Some value }
    ensures none_has_it { (objects : List Object) (dict : ℕ) (entries : List Entry) (name : List ℕ)
        → HasEntries objects dict entries
        → last_of objects dict name ≡ None → NoneNamed name entries }
    ensures none_is_found { (objects : List Object) (dict : ℕ) (entries : List Entry)
        (name : List ℕ)
        → HasEntries objects dict entries → NoneNamed name entries
        → last_of objects dict name ≡ None }
{}

/// The last keys of a dictionary are those of the last entries of its names. Their names are exactly those of the entries,
/// in ascending byte order, each once.
pub fn last_keys_are_of_the_last_entries()
    ensures last { (objects : List Object) (dict key : ℕ) (entries : List Entry)
        → HasEntries objects dict entries → Contains (last_keys_of objects dict) key
        → IsLastNamed (name_of (slice_get objects key)) (key + 1) entries }
    ensures all { (objects : List Object) (dict key : ℕ) (name : List ℕ) (entries : List Entry)
        → HasEntries objects dict entries → IsLastNamed name (key + 1) entries
        → Contains (last_keys_of objects dict) key }
    ensures names { (objects : List Object) (dict : ℕ) (name : List ℕ) (entries : List Entry)
        → HasEntries objects dict entries
        → Contains (map (λ (e : Entry). e.name) entries) name
        → Contains (key_names objects (last_keys_of objects dict)) name }
    ensures no_others { (objects : List Object) (dict : ℕ) (name : List ℕ) (entries : List Entry)
        → HasEntries objects dict entries
        → Contains (key_names objects (last_keys_of objects dict)) name
        → Contains (map (λ (e : Entry). e.name) entries) name }
    ensures ascending { (objects : List Object) (dict : ℕ)
        → Ascend (key_names objects (last_keys_of objects dict)) }
{}
