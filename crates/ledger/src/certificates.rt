ghost use Rattle.std.specs.Prelude.{◌≡◌, ◌-◌, ◌^◌, ◌<◌, ◌≤◌};
ghost use Rattle.ledger.specs.Certificates.{lowest_from};

use kinds::certificate_set::CertificateSet;

// The lowest certificates of a set, so many of them, going up the numbers from one on. A loop, as the closures of a chain
// would not know that they shift by less than 16.
pub fn lowest(set: CertificateSet, count: u8, from: u8) -> CertificateSet
    ensures { result.bits ≡ lowest_from count from (9 - from) set.bits }
{
    let mut left = count;
    let mut bits: u16 = 0;
    for number in from..9 {
        if left > 0 && set.contains(number) {
            bits += 1 << number;
            left -= 1;
        }
    }
    CertificateSet { bits }
}
