ghost use Rattle.std.specs.Prelude.{◌≡◌, ◌-◌, MatchOption, slice_index, slice_index_or};
ghost use Rattle.kinds.specs.Papers.{no_papers};
ghost use Rattle.ledger.specs.Holdings.{no_company, treasury, seat_papers, marks_at, company_of, papers_at, trains_held, tenths_at, holds_director};

use crate::books::Books;
use crate::company::Company;
use kinds::cash::Cash;
use kinds::papers::Papers;

// Nothing stands outside a row.
pub fn papers_in(hands: &[Papers], place: usize) -> Papers
    ensures { result ≡ slice_index_or hands.now place no_papers }
{
    hands.get(place).copied().unwrap_or_else(Papers::none)
}

// Where a company's record stands.
pub fn slot(company: u8) -> usize
    ensures { result ≡ company - 1 }
{
    usize::from(company).saturating_sub(1)
}

// Where a seat stands in a company's row: after the offering and the pool.
pub fn seat_papers(seat: u8) -> usize
    ensures { result ≡ seat_papers seat }
{
    usize::from(seat) + 1
}

impl Books {
    // A company's record; nothing stands outside the row.
    fn record(&self, company: u8) -> Option<&Company>
        ensures { MatchOption result (company_of self.now company ≡ no_company) (λ c. c.now ≡ company_of self.now company) }
    {
        self.companies.get(slot(company))
    }

    // Where a company's cash stands: after the bank and the seats.
    pub fn treasury(&self, company: u8) -> usize
        ensures { result ≡ treasury self.now company }
    {
        usize::from(self.players) + usize::from(company)
    }

    // Marks at a place of the cash row.
    pub fn marks(&self, place: usize) -> i32
        ensures { result ≡ marks_at self.now place }
    {
        self.cash.get(place).map_or(0, Cash::marks)
    }

    // How many trains of a kind stand at a place of the train row.
    pub fn trains(&self, place: usize, kind: u8) -> u8
        ensures { result ≡ trains_held self.now place kind }
    {
        self.trains.get(place).map_or(0, |hand| hand.count(kind))
    }

    // Certificates of a company at a place of its row.
    pub fn papers(&self, company: u8, place: usize) -> Papers
        ensures { result ≡ papers_at self.now company place }
    {
        self.record(company)
            .map_or_else(Papers::none, |record| papers_in(&record.papers, place))
    }

    pub fn tenths(&self, company: u8, place: usize) -> u32
        ensures { result ≡ tenths_at self.now company place }
    {
        self.papers(company, place).tenths()
    }

    pub fn space(&self, company: u8) -> u16
        ensures { result ≡ (company_of self.now company).space }
    {
        self.record(company).map_or(0, |record| record.space)
    }

    pub fn par(&self, company: u8) -> u16
        ensures { result ≡ (company_of self.now company).par }
    {
        self.record(company).map_or(0, |record| record.par)
    }

    pub fn floated(&self, company: u8) -> bool
        ensures { result ≡ (company_of self.now company).floated }
    {
        self.record(company).map_or(false, |record| record.floated)
    }

    // The round in which a seat last sold a company's papers.
    pub fn last_sold(&self, seat: u8, company: u8) -> u16
        ensures { result ≡ slice_index (company_of self.now company).sold (seat - 1) }
    {
        self.record(company)
            .and_then(|record| record.sold.get(slot(seat)))
            .copied()
            .unwrap_or(0)
    }

    // The round in which a company last had its turn.
    pub fn served(&self, company: u8) -> u16
        ensures { result ≡ (company_of self.now company).served }
    {
        self.record(company).map_or(0, |record| record.served)
    }
}
