// Laws over the definitions: each function does nothing, and its contract is the law.

ghost use Rattle.std.specs.Prelude.{◌≡◌, true};
ghost use Rattle.std.specs.List.{list_all};
ghost use Rattle.plain_words.specs.Names.{is_name};
ghost use Rattle.escaped_names.specs.Escapes.{escaped, is_plain, name_fault};

/// Two different names have different escaped forms.
pub fn apart_law(one: &[u8], other: &[u8])
    ensures { escaped one.now ≡ escaped other.now → one.now ≡ other.now }
{
    let _one = one;
    let _other = other;
}

/// An escaped name is one that a job may have.
pub fn name_law(bytes: &[u8])
    ensures { name_fault bytes.now ≡ None → is_name (escaped bytes.now) ≡ true }
{
    let _bytes = bytes;
}

/// A name of bytes that stand for themselves is its own escaped form.
pub fn plain_law(bytes: &[u8])
    ensures { list_all is_plain bytes.now ≡ true → escaped bytes.now ≡ bytes.now }
{
    let _bytes = bytes;
}
