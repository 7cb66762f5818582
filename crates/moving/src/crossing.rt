use kinds::certificate_set::CertificateSet;
use kinds::train_load::TrainLoad;

// One load that one hand gives to another. Givers and receivers are places of the books' rows.
#[derive(Clone, Copy, PartialEq, Eq, Debug)]
pub enum Crossing {
    Cash {
        giver: usize,
        receiver: usize,
        marks: u32,
    },
    Papers {
        company: u8,
        giver: usize,
        receiver: usize,
        certificates: CertificateSet,
    },
    Trains {
        giver: usize,
        receiver: usize,
        load: TrainLoad,
    },
}
