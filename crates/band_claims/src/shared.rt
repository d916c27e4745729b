// The table, and the steps of a pass.
ghost use Rattle.std.specs.Prelude.{◌≡◌, ◌≢◌, ◌⊎◌, ℕ, ◌+◌, ◌-◌, ◌*◌, ◌<◌, ◌≤◌, ◌↔◌, ◌&&◌, ◌==◌, nat_lt, IsTrue, false, IfOk, List, true, [], ◌∷◌, ◌++◌, length, slice_index, Some, None};
ghost use Rattle.page_model.specs.Bands.{pieces_of};
ghost use Rattle.band_core.specs.Needs.{is_need};
ghost use Rattle.band_core.specs.TableWords.{AreWords, board_of};
ghost use Rattle.band_core.specs.Boards.{is_done as is_done_on};
ghost use Rattle.band_core.specs.Runs.{Sound};
ghost use Rattle.band_core.specs.TableShapes.{Has};
ghost use Rattle.band_core.specs.Values.{IsFor};
ghost use Rattle.band_claims.specs.TableKeys.{cell, shape_of, IsFit};
ghost use Rattle.band_claims.specs.Views.{IsFair, times, Knows, looked_at, claimed, put, finished, parted, branched, joined, Won, Lost};
ghost use Rattle.band_claims.specs.Seating.{Seats};
ghost use Rattle.band_claims.specs.Rule.{piece_word};
ghost use Rattle.band_claims.specs.Remembered.{Remembered, Ends};
ghost use Rattle.band_claims.specs.Shares.{IsWhole};
ghost use Rattle.band_claims.specs.Views.{newcomer, one_if};

use crate::closed::Closed;
use crate::pass::{Pass, Reader};
use crate::plays::{Claims, Finishes, Looks, Passes, Puts, Readers, Reads};
use crate::table_key::TableKey;
use crate::view::View;
use atomic_table::{Seat, Table, TableRule};
use band_core::layout::Layout;
use band_core::needs::{need_at, need_count, pieces};
use lists::names::OutOfMemory;
use page_model::bands::Bands;
use page_model::page::Page;
use std::alloc::Global;
use std::marker::Model;
use std::snapshot::Snapshot;

/// The rule of the shared table: `specs/Rule.antt` has its clauses. Each step that was made is of one of the eight
/// kinds of `specs/Kinds.antt`.
pub struct Claiming;

impl TableRule<(), View, TableKey> for Claiming {
    ghost holds = { Remembered };

    ghost first = { newcomer };
}

/// The shared table of a page: a word for each piece, 0 if it is free, 1 if it is claimed and 2 if it is done, and then
/// a word for each cell, 0 if it is empty. Threads share it by reference, each with a pass of its own.
#[derive(Drop)]
pub struct Shared {
    table: Table<(), View, TableKey, Claiming, Global>,
    table_key: TableKey,
    marks: Vec<u8>,
}

impl Model for Shared {
    ghost use Rattle.band_claims.specs.Seating.{OpenTable, IsOpenTable};

    ghost Value = { OpenTable };

    ghost view = { λ s. record {
      table = s.table.shared.table_id;
      table_key = s.table.shared.key;
      workspace = s.marks.cap;
    } };

    ghost invariant = { λ s. IsOpenTable s.table.shared.table_id.words
        s.table.shared.table_id.slots s.table.shared.key s.table_key s.marks.items };
}

type Words = Table<(), View, TableKey, Claiming, Global>;

// A table whose words are all 0. The list of zeros that it is copied from is dropped here.
fn open_table(alloc: Global, table_key: &TableKey) -> Result<(Words, Seat<(), View>), OutOfMemory>
    requires fit { IsFit table_key.now }
    ensures words { IfOk result (λ t. t.0.shared.table_id.words
        ≡ (shape_of table_key.now).pieces + (shape_of table_key.now).cells) }
    ensures slots { IfOk result (λ t. t.0.shared.table_id.slots ≡ 0) }
    ensures reported { IfOk result (λ t. t.0.shared.key ≡ table_key.now) }
    ensures seat { IfOk result (λ t.
        (t.1.table_id ≡ t.0.shared.table_id) × (t.1.me ≡ (newcomer table_key.now, []))) }
{
    let count = pieces(table_key.layout.bands()) + table_key.layout.cells();
    let Ok(zeros) = vec![in alloc; 0u64; count as usize] else {
        return Err(OutOfMemory);
    };
    Table::of_words(alloc, zeros.as_slice(), table_key).or(Err(OutOfMemory))
}

impl Shared {
    /// Allocates a table for a page, with all words 0, and its first pass, which knows nothing.
    pub fn new(
        alloc: Global,
        page: &Page,
        bands: &Bands,
        layout: &Layout,
    ) -> Result<(Shared, Pass), OutOfMemory>
        requires layout { IsFor page.now layout.now }
        requires bands { layout.now.bands ≡ bands.now }
        ensures pass { IfOk result (λ t. Seats t.0 t.1) }
        ensures new { IfOk result (λ t. t.1.view ≡ newcomer t.0.table_key) }
        ensures page { IfOk result (λ t. t.0.table_key.page.value ≡ page.now) }
        ensures layout { IfOk result (λ t. t.0.table_key.layout ≡ layout.now) }
    {
        let table_key = TableKey {
            page: Snapshot::of(page),
            layout: *layout,
        };
        let pieces = pieces(bands);
        let Ok(marks) = vec![in alloc; 0u8; pieces as usize] else {
            return Err(OutOfMemory);
        };
        let (table, seat) = open_table(alloc, &table_key)?;
        let shared = Shared {
            table,
            table_key,
            marks,
        };
        let pass = Pass {
            seat,
            piece: 0,
            next: 0,
        };
        Ok((shared, pass))
    }

    /// The bands that the table was made with.
    pub fn bands(&self) -> &Bands
        ensures same { result.now ≡ self.now.table_key.layout.bands }
        ensures fits { IsFit self.now.table_key }
    {
        self.table_key.layout.bands()
    }

    /// The layout that the table was made with.
    pub fn layout(&self) -> &Layout
        ensures { result.now ≡ self.now.table_key.layout }
    {
        &self.table_key.layout
    }

    /// The page and the layout that the table was made with.
    pub fn table_key(&self) -> &TableKey
        ensures same { result.now ≡ self.now.table_key }
        ensures fits { IsFit self.now.table_key }
    {
        &self.table_key
    }

    /// Loads the word of a piece, and returns whether it is 2, that of a done piece.
    pub fn is_done(&self, pass: &mut Pass, piece: u32) -> bool
        requires pass { Seats self.now pass.old }
        requires piece { piece < pieces_of self.now.table_key.layout.bands }
        ensures pass { Seats self.now pass.new }
        ensures answer { (found : ℕ) × (pass.new.view ≡ looked_at piece found pass.old.view)
            × (IsTrue result ↔ (found ≡ 2)) }
    {
        let found = self
            .table
            .shared
            .load::<Looks>(&mut pass.seat, piece as usize);
        found == 2
    }

    /// Tries to claim a piece. Returns false exactly if it found a need of the piece that is not done, or the piece
    /// itself not free; the pass then holds nothing, and `looked` ends with what was found.
    pub fn claim(&self, pass: &mut Pass, piece: u32) -> bool
        requires pass { Seats self.now pass.old }
        requires piece { piece < pieces_of self.now.table_key.layout.bands }
        requires idle { pass.old.view.stored ≡ None }
        ensures pass { Seats self.now pass.new }
        ensures won { IsTrue result
            → Won self.now.table_key.layout.bands piece pass.old.view pass.new.view }
        ensures lost { result ≡ false
            → Lost self.now.table_key.layout.bands piece pass.old.view pass.new.view }
    {
        let bands = self.table_key.layout.bands();
        let count = need_count(bands, piece);
        for k in 0..count {
            let need = need_at(bands, piece, k);
            if !self.is_done(pass, need) {
                return false;
            }
        }
        self.take(pass, piece)
    }

    // Claims a piece whose needs are done, by a compare-exchange of its word from 0 to 1.
    fn take(&self, pass: &mut Pass, piece: u32) -> bool
        requires pass { Seats self.now pass.old }
        requires piece { piece < pieces_of self.now.table_key.layout.bands }
        requires idle { pass.old.view.stored ≡ None }
        requires known { (n : ℕ) → is_need self.now.table_key.layout.bands piece n ≡ true
            → Knows pass.old.view n }
        ensures pass { Seats self.now pass.new }
        ensures answer { (found : ℕ) × (pass.new.view ≡ claimed piece found pass.old.view)
            × (IsTrue result ↔ (found ≡ 0)) }
    {
        let found = self
            .table
            .shared
            .compare_exchange::<Claims>(&mut pass.seat, piece as usize, 0, 1);
        if found == 0 {
            pass.piece = piece;
            pass.next = pieces(self.table_key.layout.bands())
                + self.table_key.layout.first_cell(piece);
        }
        found == 0
    }

    /// Stores the defined value of the next cell of the held piece.
    pub fn put_cell(&self, pass: &mut Pass, value: u64)
        requires pass { Seats self.now pass.old }
        requires next { (piece : ℕ) × (pass.old.view.stored ≡ Some piece)
            × (pass.old.view.filled < (shape_of self.now.table_key).size piece)
            × (value ≡ cell self.now.table_key
            ((shape_of self.now.table_key).start piece + pass.old.view.filled)) }
        ensures pass { Seats self.now pass.new }
        ensures put { pass.new.view ≡ put pass.old.view }
    {
        self.table
            .shared
            .store::<Puts>(&mut pass.seat, pass.next as usize, value);
        pass.next += 1;
    }

    /// Publishes the held piece, all of whose cells are filled: stores 2 in its word.
    pub fn finish(&self, pass: &mut Pass)
        requires pass { Seats self.now pass.old }
        requires full { (piece : ℕ) × (pass.old.view.stored ≡ Some piece)
            × (pass.old.view.filled ≡ (shape_of self.now.table_key).size piece) }
        ensures pass { Seats self.now pass.new }
        ensures finished { (piece : ℕ) × (pass.old.view.stored ≡ Some piece)
            × (pass.new.view ≡ finished piece pass.old.view) }
        ensures fair { IsFair (pieces_of self.now.table_key.layout.bands) pass.new.view }
    {
        self.table
            .shared
            .store::<Finishes>(&mut pass.seat, pass.piece as usize, 2);
    }

    /// Loads the words of cells, from cell `first` on, of pieces that the pass saw done or published. They are the
    /// defined values.
    pub fn read_cells(&self, pass: &mut Pass, first: u32, out: &mut [u64])
        requires pass { Seats self.now pass.old }
        requires known { (o : ℕ) → o < length out.old → (piece : ℕ)
            × Has (shape_of self.now.table_key) piece (first + o) × Knows pass.old.view piece }
        ensures pass { pass.new ≡ pass.old }
        ensures cells { (o : ℕ) → o < length out.new
            → slice_index out.new o ≡ cell self.now.table_key (first + o) }
    {
        let _ = &self.table_key.layout;
        for o in 0..out.len() {
            out[o] = self.read_cell(pass, first + o as u32);
        }
    }

    /// Loads the word of one cell of a piece that the pass saw done or published. It is the defined value.
    pub fn read_cell(&self, pass: &mut Pass, j: u32) -> u64
        requires pass { Seats self.now pass.old }
        requires known { (piece : ℕ) × Has (shape_of self.now.table_key) piece j
            × Knows pass.old.view piece }
        ensures pass { pass.new ≡ pass.old }
        ensures cell { result ≡ cell self.now.table_key j }
    {
        let word = pieces(self.table_key.layout.bands()) + j;
        self.table
            .shared
            .load::<Reads>(&mut pass.seat, word as usize)
    }

    /// Splits a pass in two. The second one holds nothing, has published nothing, and knows what the first one knows.
    /// Each has half of the share.
    pub fn split(&self, pass: Pass) -> (Pass, Pass)
        requires pass { Seats self.now pass }
        requires idle { pass.view.stored ≡ None }
        ensures first { Seats self.now result.0 }
        ensures second { Seats self.now result.1 }
        ensures kept { result.0.view ≡ parted true pass.view }
        ensures new { result.1.view ≡ branched true pass.view }
    {
        let mut pass = pass;
        let seat = self.table.shared.split_seat::<Passes>(&mut pass.seat);
        let other = Pass {
            seat,
            piece: 0,
            next: 0,
        };
        (pass, other)
    }

    /// A seat that only reads, and knows what the pass knows. The pass stays unchanged.
    pub fn reader(&self, pass: &mut Pass) -> Reader
        requires pass { Seats self.now pass.old }
        requires idle { pass.old.view.stored ≡ None }
        ensures pass { pass.new ≡ pass.old }
        ensures reader { Seats self.now result }
        ensures new { result.view ≡ branched false pass.old.view }
    {
        Reader {
            seat: self.table.shared.split_seat::<Readers>(&mut pass.seat),
        }
    }

    /// Does what `is_done` does, by a seat that only reads.
    pub fn sees_done(&self, reader: &mut Reader, piece: u32) -> bool
        requires reader { Seats self.now reader.old }
        requires piece { piece < pieces_of self.now.table_key.layout.bands }
        ensures reader { Seats self.now reader.new }
        ensures answer { (found : ℕ) × (reader.new.view ≡ looked_at piece found reader.old.view)
            × (IsTrue result ↔ (found ≡ 2)) }
    {
        let found = self
            .table
            .shared
            .load::<Looks>(&mut reader.seat, piece as usize);
        found == 2
    }

    /// Does what `read_cell` does, by a seat that only reads.
    pub fn read_alone(&self, reader: &mut Reader, j: u32) -> u64
        requires reader { Seats self.now reader.old }
        requires known { (piece : ℕ) × Has (shape_of self.now.table_key) piece j
            × Knows reader.old.view piece }
        ensures reader { reader.new ≡ reader.old }
        ensures cell { result ≡ cell self.now.table_key j }
    {
        let word = pieces(self.table_key.layout.bands()) + j;
        self.table
            .shared
            .load::<Reads>(&mut reader.seat, word as usize)
    }

    /// Joins two passes into one, which has published and seen what both had, and has the shares of both.
    pub fn join(&self, one: Pass, two: Pass) -> Pass
        requires one { Seats self.now one }
        requires two { Seats self.now two }
        requires one_idle { one.view.stored ≡ None }
        requires two_idle { two.view.stored ≡ None }
        ensures pass { Seats self.now result }
        ensures joined { result.view ≡ joined one.view two.view }
    {
        let mut one = one;
        let Pass {
            seat,
            piece: _,
            next: _,
        } = two;
        self.table.shared.join_seat::<Passes>(&mut one.seat, seat);
        one
    }

    /// Closes the table, with what the last pass knew, which holds nothing. Its words are those of a sound board, and
    /// steps of the eight kinds led to them from the opening. If the pass has all shares, it alone has published, and no
    /// piece is left claimed.
    pub fn close_all(self, pass: Pass) -> Closed
        requires pass { Seats self pass }
        requires idle { pass.view.stored ≡ None }
        ensures table_key { result.table_key ≡ self.table_key }
        ensures sound { Sound (shape_of result.table_key) (cell result.table_key)
            (board_of (shape_of result.table_key) result.words) }
        ensures words { AreWords (shape_of result.table_key) result.words }
        ensures run { Ends result.table_key result.words pass.view }
        ensures left { result.left ≡ result.words }
        ensures published { result.published ≡ pass.view.published }
        ensures seen { result.seen ≡ pass.view.seen }
        ensures looked { result.looked ≡ pass.view.looked }
        ensures reported { result.reported ≡ pass.view.reported }
        ensures done { (i : ℕ) → Knows pass.view i → piece_word result.words i ≡ 2 }
        ensures whole { IsWhole pass.view.share → (i : ℕ) → times i result.published
            ≡ one_if (nat_lt i (pieces_of result.table_key.layout.bands)
            && (piece_word result.words i == 2)) }
        ensures settled { IsWhole pass.view.share → (i : ℕ)
            → i < pieces_of result.table_key.layout.bands → piece_word result.words i ≢ 1 }
        ensures once { (i : ℕ) → times i result.published ≤ 1 }
        ensures alone { result.alone ≡ [] }
        ensures workspace { result.workspace ≡ self.workspace }
    {
        let last = Snapshot::of(&pass);
        let Shared {
            table,
            table_key,
            marks,
        } = self;
        let Pass {
            seat,
            piece: _,
            next: _,
        } = pass;
        let closed = table.close_with(seat);
        let left = Snapshot::of(&closed);
        Closed {
            table: closed,
            table_key,
            marks,
            last,
            left,
        }
    }
}
