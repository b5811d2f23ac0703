// A buffer is a plain value: a copy of it goes its own way. What finds no room in it is left out.
use octets::Buffer;
use std::test::Fail;

#[test]
fn copies_go_their_own_way(rt: HostRuntime) -> Result<(), Fail> {
    let mut line = Buffer::new();
    line.text(b"modulus ");
    let mut copy = line;
    line.number(97);
    copy.number(2013265921);
    assert_eq!(rt; line.as_slice(), b"modulus 97".as_slice());
    assert_eq!(rt; copy.as_slice(), b"modulus 2013265921".as_slice());
    Ok(())
}

#[test]
fn what_finds_no_room_is_left_out(rt: HostRuntime) -> Result<(), Fail> {
    let mut full = Buffer::new();
    for _ in 0..11 {
        full.text(b"0123456789");
    }
    full.text(b"abc");
    full.byte(b'd');
    full.number(5);
    full.text(b"");
    assert_eq!(rt; full.as_slice().len(), 112);
    let mut out = [b'-'; 116];
    assert_eq!(rt; full.lay_over(&mut out[..111]), 111);
    assert_eq!(rt; &out[108..], b"89a-----".as_slice());
    assert_eq!(rt; full.lay_over(&mut out), 112);
    assert_eq!(rt; &out[108..], b"89ab----".as_slice());
    Ok(())
}
