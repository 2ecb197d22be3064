//! The table, what it shows, and the steps that the operations on it are made of.
ghost use Rattle.std.specs.Prelude.{◌≡◌, ◌≢◌, ℕ, ◌-◌, true, false, Some, None, IsSome, IfSome, IfNone, IfOk, IfErr, OnErr};
ghost use Rattle.std.specs.FinMap.{get, insert};
ghost use Rattle.slot_table.specs.{is_held};
ghost use Rattle.slot_table.specs.Entry.{IsSlot, IsAddress, IsEntry, IsRow, entry_of};
ghost use Rattle.slot_table.specs.Desk.{first_desk, IsDesk};
ghost use Rattle.slot_table.specs.Reading.{slot_of, free_slot, row_of, is_same};
ghost use Rattle.slot_table.specs.Changes.{cleared};
ghost use Rattle.slot_table.specs.Rows.{written, IsAt};

use crate::bytes::{is_held, is_slot};
use crate::fault::SlotFault;
use crate::index::Index;
use crate::rows::{Rows, address_in, free_rows};
use ln_ops::Row;
use std::marker::Model;

/// Slots 1 to 119, each free or with a locomotive in it, and the slot that waits to be dispatched.
///
/// No address is in two slots, and the slot that waits is not free.
#[derive(Drop)]
pub struct SlotTable {
    rows: Rows,
    mark: Option<u8>,
    // The addresses of the rows, so that they need no search.
    index: Index,
}

impl Model for SlotTable {
    ghost use Rattle.slot_table.specs.Desk.{Desk, desk_code};

    ghost Value = { Desk };

    ghost coded = { desk_code };

    ghost use Rattle.slot_table.specs.Rows.{desk_of, IsKept};

    ghost view = { λ t. desk_of t.rows t.mark };

    ghost invariant = { λ t. IsKept t.rows t.mark t.index };
}

impl Default for SlotTable {
    fn default() -> Self
        ensures first { result ≡ first_desk }
        ensures desk { IsDesk result }
    {
        SlotTable::new()
    }
}

impl SlotTable {
    /// All slots are free, and none waits to be dispatched.
    pub fn new() -> Self
        ensures first { result ≡ first_desk }
        ensures desk { IsDesk result }
    {
        SlotTable {
            rows: free_rows(),
            mark: None,
            index: Index::new(),
        }
    }

    /// The slot that waits to be dispatched.
    pub fn mark(&self) -> Option<u8>
        ensures mark { result ≡ self.now.mark }
        ensures slot { IfSome result IsSlot }
        ensures placed { IfSome result (λ n. IsSome (get self.now.place n)) }
        ensures desk { IsDesk self.now }
    {
        self.mark
    }

    /// What slot `n`, 1 to 119, reads as: zeros with the state free where no locomotive is in it.
    pub fn row(&self, n: u8) -> Row
        requires { IsSlot n }
        ensures row { result ≡ row_of self.now n }
        ensures legal { IsRow result }
        ensures desk { IsDesk self.now }
    {
        self.rows[(n - 1) as usize]
    }

    /// The slot that holds an address.
    pub fn find(&self, address: u16) -> Option<u8>
        ensures found { result ≡ slot_of self.now address }
        ensures place { IfSome result (λ n. get self.now.place n ≡ Some address) }
        ensures slot { IfSome result IsSlot }
        ensures nowhere { IfNone result ((n : ℕ) → get self.now.place n ≢ Some address) }
        ensures desk { IsDesk self.now }
    {
        self.index.slot_of(address)
    }

    /// The least free slot.
    pub(crate) fn free(&self) -> Option<u8>
        ensures free { result ≡ free_slot self.now }
        ensures slot { IfSome result IsSlot }
        ensures none { IfSome result (λ n. get self.now.place n ≡ None) }
    {
        self.index.least_free()
    }

    /// The row of a slot that is not free. Refused for any other number.
    pub(crate) fn held(&self, n: u8) -> Result<Row, SlotFault>
        ensures held { IfOk result (IsAt self.now n) }
        ensures free { OnErr result (get self.now.place n ≡ None) }
        ensures illegal { IfErr result (λ e. e ≡ SlotFault.Illegal) }
        ensures desk { IsDesk self.now }
    {
        let rows = &self.rows;
        if !is_slot(n) {
            return Err(SlotFault::Illegal);
        }
        let row = rows[(n - 1) as usize];
        if is_held(row.state) {
            Ok(row)
        } else {
            Err(SlotFault::Illegal)
        }
    }

    /// Whether the slot waits to be dispatched.
    pub(crate) fn is_marked(&self, n: u8) -> bool
        ensures { result ≡ is_same self.now.mark n }
    {
        match self.mark {
            Some(m) => m == n,
            None => false,
        }
    }

    /// The slot gets this row instead of its present row.
    pub(crate) fn put(&mut self, n: u8, row: Row)
        requires slot { IsSlot n }
        requires row { IsRow row }
        requires one_place { (m : ℕ) → is_held row.state ≡ true
            → get self.old.place m ≡ Some row.address → m ≡ n }
        requires marked { is_held row.state ≡ false → self.old.mark ≢ Some n }
        ensures after { self.new ≡ written self.old n row }
        ensures desk { IsDesk self.new }
    {
        let position = (n - 1) as usize;
        self.index
            .change(n, address_in(self.rows[position]), address_in(row));
        self.rows[position] = row;
    }

    /// The slot, which is not free, waits to be dispatched instead of any other; or none does.
    pub(crate) fn set_mark(&mut self, mark: Option<u8>)
        requires { (n : ℕ) → mark ≡ Some n → IsSome (get self.old.place n) }
        ensures after { self.new ≡ record self.old { mark = mark } }
        ensures desk { IsDesk self.new }
    {
        self.mark = mark;
    }

    /// The entry of the slot's address becomes that of the row.
    pub(crate) fn change(&mut self, n: u8, row: Row)
        requires slot { IsSlot n }
        requires address { IsAddress row.address }
        requires place { get self.old.place n ≡ Some row.address }
        requires entry { IsEntry (entry_of row) }
        requires desk { IsDesk self.old }
        ensures after { self.new
            ≡ record self.old { asked = insert self.old.asked row.address (entry_of row) } }
        ensures desk { IsDesk self.new }
    {
        // The address stays, so the index does.
        let position = (n - 1) as usize;
        self.rows[position] = row;
    }

    /// The slot is free, and does not wait to be dispatched.
    pub(crate) fn clear(&mut self, n: u8)
        requires { IsSlot n }
        ensures after { self.new ≡ cleared self.old n }
        ensures desk { IsDesk self.new }
    {
        if self.is_marked(n) {
            self.set_mark(None);
        }
        self.put(n, Row::FREE);
    }
}
