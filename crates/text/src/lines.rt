ghost use Rattle.std.specs.Prelude.{◌≡◌};
ghost use Rattle.text.specs.Lines.{bank_line, company_line, number_field, refused_at_line, refused_line, refused_number, seat_line};
ghost use Rattle.text.specs.Text.{added, shown};

use crate::text::Text;

// Piece by piece: `write!` tells what it wrote only where it answers `Ok`, and these functions always do.
impl Text {
    pub fn push_bank_line(&mut self, cash: i32)
        ensures { shown self.new ≡ added (shown self.old) (bank_line cash) }
    {
        self.push_bytes(b"bank ");
        self.push_signed(cash);
        self.push(b'\n');
    }

    pub fn push_seat_line(&mut self, seat: u8, cash: i32, certificates: u32)
        ensures { shown self.new ≡ added (shown self.old) (seat_line seat cash certificates) }
    {
        self.push_bytes(b"seat ");
        self.push_number(u64::from(seat));
        self.push(b' ');
        self.push_signed(cash);
        self.push_field(u64::from(certificates));
        self.push(b'\n');
    }

    pub fn push_company_line(
        &mut self,
        company: u8,
        cash: i32,
        price: u16,
        director: u8,
        offering: u32,
        pool: u32,
    )
        ensures { shown self.new ≡ added (shown self.old) (company_line company cash price director offering pool) }
    {
        self.push_bytes(b"company ");
        self.push_number(u64::from(company));
        self.push(b' ');
        self.push_signed(cash);
        self.push_field(u64::from(price));
        self.push_field(u64::from(director));
        self.push_field(u64::from(offering));
        self.push_field(u64::from(pool));
        self.push(b'\n');
    }

    // One of the later fields of a line, after its blank.
    fn push_field(&mut self, n: u64)
        ensures { shown self.new ≡ added (shown self.old) (number_field n) }
    {
        self.push(b' ');
        self.push_number(n);
    }

    // What the line of a refusal begins with.
    fn push_refused(&mut self, number: u8)
        ensures { shown self.new ≡ added (shown self.old) (refused_number number) }
    {
        self.push_bytes(b"refused ");
        self.push_number(u64::from(number));
    }

    pub fn push_refused_line(&mut self, number: u8)
        ensures { shown self.new ≡ added (shown self.old) (refused_line number) }
    {
        self.push_refused(number);
        self.push_bytes(b"\n");
    }

    pub fn push_refused_at_line(&mut self, number: u8, place: usize)
        ensures { shown self.new ≡ added (shown self.old) (refused_at_line number place) }
    {
        self.push_refused(number);
        self.push_bytes(b" at ");
        self.push_number(place as u64);
        self.push(b'\n');
    }
}
