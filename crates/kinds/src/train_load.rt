// A load of trains: so many of one kind. No table has a kind above 7.
#[derive(Clone, Copy, PartialEq, Eq, Debug)]
pub struct TrainLoad {
    pub kind: u8,
    pub count: u8,
}
