//! Why values of configuration variables are refused.

/// Why values are not those of a locomotive decoder.
///
/// The first three are tested in this order, and `BadList`, of a list alone, before them.
#[derive(Clone, Copy, Debug, PartialEq, Eq)]
pub enum CvFault {
    /// CV1, the short address, is outside 1 to 127.
    BadCv1,
    /// CV29 bit 5 asks for a long address, and CV17, its first byte, is outside 192 to 231.
    BadCv17,
    /// CV29 bit 7 says that this is an accessory decoder.
    NotLoco,
    /// A number is outside 1 to 1024 or appears twice, or CV1 or CV29 is missing.
    BadList,
}
