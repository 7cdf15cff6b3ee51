//! Why an attempt can fail.
/// Why an attempt fails. The numbers of the kinds, 1 to 7, are in this order.
#[derive(Clone, Copy, Debug, PartialEq, Eq)]
pub enum FailKind {
    /// A number outside the range of `i64`.
    Overflow,
    /// A division by 0.
    Division,
    /// An operand of another kind, or a condition that isn't a number.
    Kind,
    /// A text of more than 65,536 bytes.
    Long,
    /// What stands in `R[E]` isn't a number from 0 to 4,294,967,295.
    Object,
    /// What stands after `repeat` isn't a number from 0 to 1,000.
    Count,
    /// The statement would be the 10,001st.
    Budget,
}
