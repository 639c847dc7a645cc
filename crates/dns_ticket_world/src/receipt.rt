//! The receipts of a seat: which rows are its own.

ghost use Rattle.std.specs.Prelude.{◌≡◌, [], OnOk, OnErr};
ghost use Rattle.dns_ticket_world.specs.Rows.{with_receipt};

use dns_io::OutOfMemory;
use std::alloc::Global;
use std::marker::Model;

/// The rows that a seat added in one turn.
#[derive(Clone, Copy, Debug, PartialEq, Eq)]
pub struct Receipt {
    /// The number that the rows bear, which is the seat's.
    pub client: u32,
    /// The id of the first row, which is its place from 1.
    pub first: u64,
    /// How many rows there are, at least 1.
    pub count: u64,
}

/// Receipts, in order.
#[derive(Drop)]
pub(crate) struct Receipts {
    receipts: Vec<Receipt>,
}

impl Model for Receipts {
    ghost use Rattle.std.specs.Prelude.{List};
    ghost use Rattle.dns_ticket_world.specs.declared.receipt.Receipt.{Receipt as Given};

    ghost Value = { List Given };

    ghost view = { λ r. r.receipts.items };
}

impl Receipts {
    /// No receipts.
    pub(crate) fn new(alloc: Global) -> Receipts
        ensures { result ≡ [] }
    {
        Receipts {
            receipts: Vec::new(alloc),
        }
    }

    /// The receipts.
    pub(crate) fn as_slice(&self) -> &[Receipt]
        ensures { result.now ≡ self.now }
    {
        self.receipts.as_slice()
    }

    /// Adds a receipt, where there is one. After an `Err` the receipts are as before.
    pub(crate) fn add(&mut self, receipt: Option<Receipt>) -> Result<(), OutOfMemory>
        ensures ok { OnOk result (self.new ≡ with_receipt self.old receipt) }
        ensures err { OnErr result (self.new ≡ self.old) }
    {
        match receipt {
            None => Ok(()),
            Some(receipt) => {
                self.receipts.push(receipt)?;
                Ok(())
            }
        }
    }
}
