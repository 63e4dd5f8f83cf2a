// The value of a hex digit, by the ranges of RFC 3986, section 2.1.
ghost use Rattle.percent_decode.specs.Inner.Unit.{Hex};

// The value of a hex digit of either case, and 16 for any other byte. All three ranges are asked: a return from the first that has the
// byte would be a branch for each digit, and which way it goes cannot be foretold; so the answer is no `Option`.
pub(crate) fn hex_value(b: u8) -> u8
    ensures { Hex b result }
{
    let mut value = 16;
    if (b'0' <= b) & (b <= b'9') {
        value = b - b'0';
    }
    if (b'A' <= b) & (b <= b'F') {
        value = b - b'A' + 10;
    }
    if (b'a' <= b) & (b <= b'f') {
        value = b - b'a' + 10;
    }
    value
}
