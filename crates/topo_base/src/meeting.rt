/// How two lines meet.
#[derive(Clone, Copy, Debug, PartialEq, Eq)]
pub enum Meeting {
    /// They have no common point.
    Apart,
    /// They have common points, and each of them is an end of both.
    AtEnds,
    /// They have a common point that is not an end of both.
    Inside,
}
