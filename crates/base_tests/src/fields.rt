//! Fields cut from the front of texts, by a table.
use text_num::cut_field;

#[test]
fn cuts_fields(rt: HostRuntime) {
    let texts: [(&[u8], u8, &[u8], Option<&[u8]>); 6] = [
        (b"drain", b' ', b"drain", None),
        (b"kernel ffff 10", b' ', b"kernel", Some(b"ffff 10")),
        (b" kernel", b' ', b"", Some(b"kernel")),
        (b"kernel ", b' ', b"kernel", Some(b"")),
        (b"", b' ', b"", None),
        (b"head.12", b'.', b"head", Some(b"12")),
    ];
    for (text, separator, field, behind) in texts {
        assert!(rt; cut_field(text, separator) == (field, behind));
    }
}
