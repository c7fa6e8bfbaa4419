// The refusals in words: the name in document 01, and what it means.
use meaning::Fault;

pub(crate) fn words(fault: Fault) -> &'static str {
    match fault {
        // written by tools/refusals from docs/refusals.txt
        Fault::BadOffset =>
            "BadOffset: the offset or the writing place lies behind the end of the bytes",
        Fault::NotEnoughBytes =>
            "NotEnoughBytes: a value, a field or a padding runs past its end, or an array's length is not a whole number of elements",
        Fault::NotEnoughBytesForCollection =>
            "NotEnoughBytesForCollection: the contents of an array or a dict run past the end of the bytes that they stand in",
        Fault::PaddingContainedData =>
            "PaddingContainedData: a byte that only fills up to an alignment is not zero",
        Fault::InvalidBoolean => "InvalidBoolean: a boolean is neither 0 nor 1",
        Fault::InvalidUtf8 => "InvalidUtf8: a text is not UTF-8",
        Fault::StringContainsNullByte => "StringContainsNullByte: a text has a zero byte inside",
        Fault::MissingTerminator =>
            "MissingTerminator: the byte after a text, which has to be zero, is not",
        Fault::InvalidObjectPath =>
            "InvalidObjectPath: an object path is neither / nor one or more names of A-Z a-z 0-9 _ with a / before each",
        Fault::InvalidSignature =>
            "InvalidSignature: a signature has a byte or a bracket that the grammar does not allow there",
        Fault::EmptySignature => "EmptySignature: a signature is empty where a type has to stand",
        Fault::EmptyStruct => "EmptyStruct: a signature has a struct without fields",
        Fault::SignatureTooLong => "SignatureTooLong: a signature has more than 255 bytes",
        Fault::NestingTooDeep =>
            "NestingTooDeep: a signature nests more than 31 arrays or more than 31 structs",
        Fault::WrongSignature =>
            "WrongSignature: a variant's signature is not exactly one type, or a known header field has another type than its own",
        Fault::VariantTooDeep => "VariantTooDeep: a variant stands inside 16 others",
        Fault::InvalidByteOrder =>
            "InvalidByteOrder: the first byte is neither l nor B, so no message begins here",
        Fault::InvalidMessageType =>
            "InvalidMessageType: the second byte, the message's type, is not 1 to 4",
        Fault::NoSignature => "NoSignature: a header field's signature is not exactly one type",
        Fault::InvalidHeaderField => "InvalidHeaderField: a header field has the code 0",
        Fault::InvalidHeaderFields =>
            "InvalidHeaderFields: a header field that this type of message needs is absent, or a known one stands twice",
        Fault::BodyLeft =>
            "BodyLeft: bytes of the body remain after the last value of its signature",
        Fault::NoRoom => "NoRoom: there are fewer bytes after the place than the write needs",
        Fault::BadAlignment => "BadAlignment: the alignment asked for is not 1, 2, 4 or 8",
        Fault::TextTooLong => "TextTooLong: a string to write has more than 4,294,967,295 bytes",
        Fault::BadArgument =>
            "BadArgument: the signature asked about is not exactly one type, or not one that this call takes",
    }
}
