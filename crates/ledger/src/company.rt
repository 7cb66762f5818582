use kinds::papers::Papers;

// The record of a company: who holds its certificates, where its token stands, and what it did last when.
#[derive(Clone, Copy)]
pub struct Company {
    // The offering, the pool, then the seats.
    pub papers: [Papers; 8],
    pub space: u16,
    pub par: u16,
    pub floated: bool,
    // The round in which each seat last sold it.
    pub sold: [u16; 6],
    // The round in which it last had its turn.
    pub served: u16,
}
