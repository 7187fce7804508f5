// The bytes of the shipped file: the texture of docs/ORDERS.md, and days on it, are written by hand.
use super::{MASTER, PART, SHIPPED, day, read_master};
use std::fs;
use std::test::Fail;

const TEXTURE: &[u8; 152] =
    b"DDS \x7c\0\0\0\x07\x10\x02\0\x04\0\0\0\x04\0\0\0\0\0\0\0\0\0\0\0\x03\0\0\0\
\0\0\0\0\0\0\0\0\0\0\0\0\0\0\0\0\0\0\0\0\0\0\0\0\
\0\0\0\0\0\0\0\0\0\0\0\0\0\0\0\0\0\0\0\0\x20\0\0\0\
\x04\0\0\0DXT1\0\0\0\0\0\0\0\0\0\0\0\0\0\0\0\0\
\0\0\0\0\x08\x10\x40\0\0\0\0\0\0\0\0\0\0\0\0\0\0\0\0\0\
\0\xf8\x1f\0\xe4\xe4\xe4\xe4\0\xf8\x1f\0PPPP\0\xf8\x1f\0\0\0\0\0";

// The same with the bytes aa and bb at the places 142 and 143.
const PAINTED: &[u8; 152] =
    b"DDS \x7c\0\0\0\x07\x10\x02\0\x04\0\0\0\x04\0\0\0\0\0\0\0\0\0\0\0\x03\0\0\0\
\0\0\0\0\0\0\0\0\0\0\0\0\0\0\0\0\0\0\0\0\0\0\0\0\
\0\0\0\0\0\0\0\0\0\0\0\0\0\0\0\0\0\0\0\0\x20\0\0\0\
\x04\0\0\0DXT1\0\0\0\0\0\0\0\0\0\0\0\0\0\0\0\0\
\0\0\0\0\x08\x10\x40\0\0\0\0\0\0\0\0\0\0\0\0\0\0\0\0\0\
\0\xf8\x1f\0\xe4\xe4\xe4\xe4\0\xf8\x1f\0PP\xaa\xbb\0\xf8\x1f\0\0\0\0\0";

// Runs days one after the other in the working directory, and checks after each what shipped.dds holds, and that nothing else is left.
#[test]
#[rattlefmt::skip]
fn shipped_files(rt: HostRuntime) -> Result<(), Fail> {
    fs::write(&rt, MASTER, TEXTURE)?;
    let days: [(&[u8], &[u8]); 4] = [
        (b"L 0 1 0 7\nL 0 1 0 8\nP 1 7 0 6 aabb\nP 1 7 0 7 aabb\nU 1 7\nK 1\nU 1 7\n", TEXTURE),
        (b"L 0 1 0 7\nP 1 7 0 6 aabb\nK 1\n", PAINTED),
        (b"L 0 1 0 7\nP 1 7 0 6 ccdd\n", PAINTED),
        (b"", TEXTURE),
    ];
    for (orders, shipped) in days {
        let mut master = read_master(&rt)?;
        assert!(rt; day(&rt, &mut master, orders).is_ok());
        assert_eq!(rt; fs::read(&rt, SHIPPED)?.as_slice(), shipped);
        assert_eq!(rt; fs::read(&rt, MASTER)?.as_slice(), TEXTURE.as_slice());
        assert!(rt; !fs::exists(&rt, PART)?);
    }
    fs::remove_file(&rt, SHIPPED)?;
    fs::remove_file(&rt, MASTER)?;
    Ok(())
}
