// Why a line is no call: the reasons of docs/CALLS.md, by their numbers.
#[derive(Clone, Copy)]
pub(crate) enum NoCall {
    Digits = 1, // a character that is no hexadecimal digit, or an odd number of digits
    TooLong = 2,
    Unknown = 3, // no call has this number, or the line is empty
    Length = 4, // the arguments are not as long as the call's, or a memory has more bytes than may be changed
    Unended = 5, // the input ended within the line
}
