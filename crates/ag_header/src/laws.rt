//! What headers and sectors are to each other.

ghost use Rattle.ag_header.specs.Reading.{HeadersAreRead};

/// A law: the fields of a sector that encodes a header give that header, so no sector encodes two; and each header that is allowed has a sector.
pub fn encoded_headers_are_read()
    ensures { HeadersAreRead }
{}
