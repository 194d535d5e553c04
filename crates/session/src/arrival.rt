// A request that a session makes: the row of this number at this time.
#[derive(Clone, Copy, PartialEq, Eq, Debug)]
pub struct Arrival {
    pub time: u32,
    pub row: u32,
}
