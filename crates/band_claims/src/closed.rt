// The table after all passes have ended.
ghost use Rattle.std.specs.Prelude.{◌≡◌, ◌≢◌, ℕ, ◌+◌, ◌==◌, ◌<◌, length, slice_index, slice_set};
ghost use Rattle.band_claims.specs.Receipt.{Ascends};
ghost use Rattle.page_model.specs.Bands.{pieces_of};
ghost use Rattle.band_claims.specs.TableKeys.{shape_of, IsFit};
ghost use Rattle.band_claims.specs.Views.{one_if, times};
ghost use Rattle.band_claims.specs.Rule.{cell_word};

use crate::pass::Pass;
use crate::table_key::TableKey;
use band_core::layout::Layout;
use band_core::needs::pieces;
use page_model::bands::Bands;
use std::alloc::Global;
use std::marker::Model;
use std::snapshot::Snapshot;

/// A table that no thread steps on any more. For contracts alone it keeps the last pass and the words as they were when
/// it was closed.
pub struct Closed {
    pub(crate) table: atomic_table::Closed<(), Global>,
    pub(crate) table_key: TableKey,
    pub(crate) marks: Vec<u8>,
    pub(crate) last: Snapshot<Pass>,
    pub(crate) left: Snapshot<atomic_table::Closed<(), Global>>,
}

impl Model for Closed {
    ghost use Rattle.std.specs.Prelude.{◌≡◌, ◌+◌, length, vec_len};
    ghost use Rattle.std.specs.Mem.Slots.{slots_items, slots_len, IsFull};
    ghost use Rattle.band_claims.specs.TableKeys.{shape_of, IsFit};
    ghost use Rattle.band_claims.specs.Receipt.{Receipt, IsReceipt, marked};

    ghost Value = { Receipt };

    ghost view = { λ c. record {
      table_key = c.table_key;
      words = slots_items c.table.words;
      left = slots_items c.left.value.words;
      published = c.last.value.view.published;
      seen = c.last.value.view.seen;
      looked = c.last.value.view.looked;
      reported = c.last.value.view.reported;
      alone = marked 0 c.marks.items;
      workspace = c.marks.cap;
    } };

    ghost invariant = { λ c. IsFull c.table.words
        × IsReceipt c.table_key (slots_items c.table.words) (slots_len c.table.slots)
        c.marks.items };
}

impl Closed {
    /// The bands that the table was made with.
    pub fn bands(&self) -> &Bands
        ensures { result.now ≡ self.now.table_key.layout.bands }
    {
        self.table_key.layout.bands()
    }

    /// The layout that the table was made with.
    pub fn layout(&self) -> &Layout
        ensures same { result.now ≡ self.now.table_key.layout }
        ensures fits { IsFit self.now.table_key }
    {
        &self.table_key.layout
    }

    /// The page and the layout that the table was made with.
    pub fn table_key(&self) -> &TableKey
        ensures same { result.now ≡ self.now.table_key }
        ensures fits { IsFit self.now.table_key }
        ensures wide { length self.now.words
            ≡ (shape_of self.now.table_key).pieces + (shape_of self.now.table_key).cells }
    {
        &self.table_key
    }

    /// The word of a piece: 0 if it is free, 1 if it is claimed, 2 if it is done.
    pub fn state(&self, piece: u32) -> u64
        requires { piece < pieces_of self.now.table_key.layout.bands }
        ensures { result ≡ slice_index self.now.words piece }
    {
        self.table.word(piece as usize)
    }

    /// The word of a cell: 0 if it is empty.
    pub fn cell(&self, cell: u32) -> u64
        requires { cell < (shape_of self.now.table_key).cells }
        ensures { result ≡ cell_word (shape_of self.now.table_key) self.now.words cell }
    {
        self.table.word(pieces(self.table_key.layout.bands()) as usize + cell as usize)
    }

    /// Writes a value to a cell. All else stays unchanged.
    pub fn set_cell(&mut self, cell: u32, value: u64)
        requires { cell < (shape_of self.old.table_key).cells }
        ensures { self.new ≡ record self.old {
          words = slice_set self.old.words (pieces_of self.old.table_key.layout.bands + cell) value;
        } }
    {
        let word = pieces(self.table_key.layout.bands()) as usize + cell as usize;
        self.table.words.put(word, value);
    }

    /// Marks a piece as done that was not, and appends it to the ascending list of the pieces that were made by one
    /// thread alone. All else stays unchanged, and nothing is allocated.
    pub fn set_done(&mut self, piece: u32)
        requires piece { piece < pieces_of self.old.table_key.layout.bands }
        requires not_done { slice_index self.old.words piece ≢ 2 }
        ensures words { self.new.words ≡ slice_set self.old.words piece 2 }
        ensures alone { (i : ℕ)
            → times i self.new.alone ≡ times i self.old.alone + one_if (i == piece) }
        ensures order { Ascends 0 self.new.alone }
        ensures table_key { self.new.table_key ≡ self.old.table_key }
        ensures left { self.new.left ≡ self.old.left }
        ensures published { self.new.published ≡ self.old.published }
        ensures seen { self.new.seen ≡ self.old.seen }
        ensures looked { self.new.looked ≡ self.old.looked }
        ensures reported { self.new.reported ≡ self.old.reported }
        ensures workspace { self.new.workspace ≡ self.old.workspace }
    {
        self.table.words.put(piece as usize, 2);
        self.marks[piece as usize] = 1;
    }
}

impl Drop for Closed {
    fn drop(self) {
        let Closed {
            table,
            table_key,
            marks,
            last,
            left,
        } = self;
        table.free();
    }
}
