// What a table of companies notes of its own records.
ghost use Rattle.std.specs.Prelude.{◌≡◌, slice_index_or, slice_set};
ghost use Rattle.ledger.specs.Holdings.{no_company};
ghost use Rattle.ledger.specs.Stock.{sold_record, noted_sale};

use crate::books::Books;
use crate::company::Company;
use crate::reading::slot;

// Nothing is noted outside a row. An index is tested here, as a proof knows no element after a slice's `get_mut`.
fn set_round(row: &mut [u16], place: usize, round: u16)
    ensures { row.new ≡ slice_set row.old place round }
{
    if place < row.len() {
        row[place] = round;
    }
}

fn note_sold(companies: &mut [Company], at: usize, seat: u8, space: u16, round: u16)
    ensures { companies.new ≡ slice_set companies.old at (sold_record (slice_index_or companies.old at no_company) space seat round) }
{
    if at < companies.len() {
        let record = &mut companies[at];
        record.space = space;
        set_round(&mut record.sold, slot(seat), round);
    }
}

impl Books {
    // Of the company records a sale changes this one: where its token stands, and that the seat sold it in this round.
    pub fn note_sale(&mut self, seat: u8, company: u8, space: u16)
        ensures { self.new ≡ noted_sale self.old seat company space }
    {
        let round = self.round;
        note_sold(&mut self.companies, slot(company), seat, space, round);
        self.stock.acted = true;
        self.stock.last = Some(seat);
    }
}
