ghost use Rattle.std.specs.Prelude.{◌≡◌, ◌==◌, nat_lt};
ghost use Rattle.kinds.specs.Papers.{bit};

// A set of certificates by number, one bit for each: a load of papers. No company has a certificate above 8.
#[derive(Clone, Copy, PartialEq, Eq, Debug)]
pub struct CertificateSet {
    pub bits: u16,
}

impl CertificateSet {
    // Whether no number in it is above those of a company's certificates.
    pub fn is_of_company(self) -> bool
        ensures { result ≡ nat_lt self.bits 512 }
    {
        self.bits < 512
    }

    pub fn contains(self, number: u8) -> bool
        ensures { result ≡ (bit number self.bits == 1) }
    {
        number < 16 && self.bits >> number & 1 == 1
    }
}
