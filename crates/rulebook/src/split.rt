// How a revenue is divided: so much for each tenth, and the rest kept by the company.
#[derive(Clone, Copy, PartialEq, Eq, Debug)]
pub struct Split {
    pub dividend: u16,
    pub kept: u16,
}
