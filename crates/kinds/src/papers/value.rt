ghost use Rattle.std.specs.Prelude.{◌≡◌};
ghost use Rattle.kinds.specs.Papers.{no_papers, all_papers, certificate_count, tenths};

use super::Papers;
use crate::certificate_set::CertificateSet;

impl Papers {
    pub fn none() -> Papers
        ensures { result ≡ no_papers }
    {
        Papers { certificates: 0 }
    }

    // All nine, as in an offering that nobody bought from.
    pub fn all() -> Papers
        ensures { result ≡ all_papers }
    {
        Papers {
            certificates: 0x1ff,
        }
    }

    pub fn certificates(&self) -> CertificateSet
        ensures { result.bits ≡ self.now.certificates }
    {
        CertificateSet {
            bits: self.certificates,
        }
    }

    #[tactic(auto, using(crate::specs::Certificates::counted))]
    pub fn count(&self) -> u32
        ensures { result ≡ certificate_count self.now }
    {
        self.certificates.count_ones()
    }

    // The director's certificate is two tenths, the others one each.
    pub fn tenths(&self) -> u32
        ensures { result ≡ tenths self.now }
    {
        self.count() + u32::from(self.certificates & 1)
    }
}
