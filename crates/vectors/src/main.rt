// Computes test vectors of the primitives and prints a line for each result: the source, the input in words, the bytes. Most inputs are
// published. Fourteen are not: ten messages at the edges of the padding, and four keys that are wrapped. The file stdout has the
// expected lines; docs/VECTORS.md says where each comes from.
#![tactic(auto)]

use sha1_block::compress_blocks;
use sha256::Sha256;
use std::io;

// Prints a name, the bytes in hexadecimal, and a line end.
fn line(rt: &impl Print, name: &str, bytes: &[u8]) -> io::Result<()> {
    print!(rt; "{name} ")?;
    for byte in bytes {
        print!(rt; "{byte:02x}")?;
    }
    println!(rt; "")
}

// The SHA-256 digest of one million times 'a', absorbed a thousand at a time.
fn million(rt: &impl Print) -> io::Result<()> {
    let part = [b'a'; 1000];
    let mut state = Sha256::new();
    for _ in 0..1000 {
        state.absorb(&part);
    }
    line(rt, "SHA-256 one million a", &state.finish())
}

// NIST's examples for FIPS 180-4.
fn nist(rt: &impl Print) -> io::Result<()> {
    line(rt, "SHA-256 abc", &sha256::digest(b"abc"))?;
    line(
        rt,
        "SHA-256 448 bits",
        &sha256::digest(b"abcdbcdecdefdefgefghfghighijhijkijkljklmklmnlmnomnopnopq"),
    )?;
    line(
        rt,
        "SHA-256 896 bits",
        &sha256::digest(
            b"abcdefghbcdefghicdefghijdefghijkefghijklfghijklmghijklmnhijklmnoijklmnopjklmnopqklmnopqrlmnopqrsmnopqrstnopqrstu",
        ),
    )?;
    million(rt)?;
    line(rt, "SHA-256 bd", &sha256::digest(&[0xbd]))?;
    line(
        rt,
        "SHA-256 c98c8e55",
        &sha256::digest(&[0xc9, 0x8c, 0x8e, 0x55]),
    )
}

// Messages of zeros at the edges of the padding. NIST publishes all of these but 63, 119 and 120 zeros.
fn edges(rt: &impl Print) -> io::Result<()> {
    let zeros = [0u8; 1000];
    line(rt, "SHA-256 empty", &sha256::digest(b""))?;
    line(rt, "SHA-256 55 zeros", &sha256::digest(&zeros[..55]))?;
    line(rt, "SHA-256 56 zeros", &sha256::digest(&zeros[..56]))?;
    line(rt, "SHA-256 57 zeros", &sha256::digest(&zeros[..57]))?;
    line(rt, "SHA-256 63 zeros", &sha256::digest(&zeros[..63]))?;
    line(rt, "SHA-256 64 zeros", &sha256::digest(&zeros[..64]))?;
    line(rt, "SHA-256 119 zeros", &sha256::digest(&zeros[..119]))?;
    line(rt, "SHA-256 120 zeros", &sha256::digest(&zeros[..120]))?;
    line(rt, "SHA-256 1000 zeros", &sha256::digest(&zeros))
}

// Prints the words of a hash value, which one after another are the digest.
fn words(rt: &impl Print, name: &str, h: [u32; 5]) -> io::Result<()> {
    print!(rt; "{name} ")?;
    for word in &h {
        print!(rt; "{word:08x}")?;
    }
    println!(rt; "")
}

// The SHA-1 digest of one million times 'a': 15,625 blocks, and a block with the padding, which counts 8,000,000 bits.
fn million_1(rt: &impl Print) -> io::Result<()> {
    let block = [b'a'; 64];
    let mut h = sha1_hash::value_after(&block);
    for _ in 0..15624 {
        compress_blocks(&mut h, &block);
    }
    let mut padding = [0; 64];
    padding[0] = 0x80;
    padding[61] = 0x7a;
    padding[62] = 0x12;
    compress_blocks(&mut h, &padding);
    words(rt, "SHA-1 one million a", h)
}

// NIST's examples for FIPS 180-4, SHA-1; and messages of zeros at the edges of the padding, which are not published.
fn sha_1(rt: &impl Print) -> io::Result<()> {
    line(rt, "SHA-1 abc", &sha1_hash::digest(b"abc"))?;
    line(
        rt,
        "SHA-1 448 bits",
        &sha1_hash::digest(b"abcdbcdecdefdefgefghfghighijhijkijkljklmklmnlmnomnopnopq"),
    )?;
    million_1(rt)?;
    let zeros = [0u8; 120];
    line(rt, "SHA-1 empty", &sha1_hash::digest(b""))?;
    line(rt, "SHA-1 55 zeros", &sha1_hash::digest(&zeros[..55]))?;
    line(rt, "SHA-1 56 zeros", &sha1_hash::digest(&zeros[..56]))?;
    line(rt, "SHA-1 63 zeros", &sha1_hash::digest(&zeros[..63]))?;
    line(rt, "SHA-1 64 zeros", &sha1_hash::digest(&zeros[..64]))?;
    line(rt, "SHA-1 119 zeros", &sha1_hash::digest(&zeros[..119]))?;
    line(rt, "SHA-1 120 zeros", &sha1_hash::digest(&zeros))
}

// RFC 4231, section 4.
fn rfc_4231(rt: &impl Print) -> io::Result<()> {
    line(rt, "RFC 4231 case 1", &hmac::mac(&[0x0b; 20], b"Hi There"))?;
    line(
        rt,
        "RFC 4231 case 2",
        &hmac::mac(b"Jefe", b"what do ya want for nothing?"),
    )?;
    line(rt, "RFC 4231 case 3", &hmac::mac(&[0xaa; 20], &[0xdd; 50]))?;
    let count = [
        1, 2, 3, 4, 5, 6, 7, 8, 9, 10, 11, 12, 13, 14, 15, 16, 17, 18, 19, 20, 21, 22, 23, 24, 25,
    ];
    line(rt, "RFC 4231 case 4", &hmac::mac(&count, &[0xcd; 50]))?;
    line(
        rt,
        "RFC 4231 case 5",
        &hmac::mac(&[0x0c; 20], b"Test With Truncation")[..16],
    )?;
    let long = [0xaa; 131];
    line(
        rt,
        "RFC 4231 case 6",
        &hmac::mac(
            &long,
            b"Test Using Larger Than Block-Size Key - Hash Key First",
        ),
    )?;
    line(
        rt,
        "RFC 4231 case 7",
        &hmac::mac(
            &long,
            b"This is a test using a larger than block-size key and a larger than block-size data. The key needs to be hashed before being used by the HMAC algorithm.",
        ),
    )
}

// RFC 2202, section 3.
fn rfc_2202(rt: &impl Print) -> io::Result<()> {
    line(
        rt,
        "RFC 2202 case 1",
        &hmac_sha1::mac(&[0x0b; 20], b"Hi There"),
    )?;
    line(
        rt,
        "RFC 2202 case 2",
        &hmac_sha1::mac(b"Jefe", b"what do ya want for nothing?"),
    )?;
    line(
        rt,
        "RFC 2202 case 3",
        &hmac_sha1::mac(&[0xaa; 20], &[0xdd; 50]),
    )?;
    line(
        rt,
        "RFC 2202 case 4",
        &hmac_sha1::mac(
            b"\x01\x02\x03\x04\x05\x06\x07\x08\x09\x0a\x0b\x0c\x0d\x0e\x0f\x10\x11\x12\x13\x14\x15\x16\x17\x18\x19",
            &[0xcd; 50],
        ),
    )?;
    line(
        rt,
        "RFC 2202 case 5",
        &hmac_sha1::mac(&[0x0c; 20], b"Test With Truncation"),
    )?;
    let long = [0xaa; 80];
    line(
        rt,
        "RFC 2202 case 6",
        &hmac_sha1::mac(
            &long,
            b"Test Using Larger Than Block-Size Key - Hash Key First",
        ),
    )?;
    line(
        rt,
        "RFC 2202 case 7",
        &hmac_sha1::mac(
            &long,
            b"Test Using Larger Than Block-Size Key and Larger Than One Block-Size Data",
        ),
    )
}

// The sixteen bytes of a block as the state of FIPS 197, section 3.4: four columns of four bytes.
fn columns(b: [u8; 16]) -> [[u8; 4]; 4] {
    [
        [b[0], b[1], b[2], b[3]],
        [b[4], b[5], b[6], b[7]],
        [b[8], b[9], b[10], b[11]],
        [b[12], b[13], b[14], b[15]],
    ]
}

// Encrypts a block, and decrypts the result.
fn cipher(rt: &impl Print, name: &str, key: [u8; 16], block: [u8; 16]) -> io::Result<()> {
    let mut schedule = [[[0u8; 4]; 4]; 11];
    aes128::expand_key(columns(key), &mut schedule);
    let hidden = aes128::encrypt(&schedule, columns(block));
    line(rt, name, hidden.as_flattened())?;
    aes128::invert_keys(&mut schedule);
    let shown = aes128::decrypt(&schedule, hidden);
    line(rt, name, shown.as_flattened())
}

// FIPS 197: the cipher examples of appendix B and appendix C.1.
fn fips_197(rt: &impl Print) -> io::Result<()> {
    cipher(
        rt,
        "FIPS 197 appendix B",
        [
            0x2b, 0x7e, 0x15, 0x16, 0x28, 0xae, 0xd2, 0xa6, 0xab, 0xf7, 0x15, 0x88, 0x09, 0xcf,
            0x4f, 0x3c,
        ],
        [
            0x32, 0x43, 0xf6, 0xa8, 0x88, 0x5a, 0x30, 0x8d, 0x31, 0x31, 0x98, 0xa2, 0xe0, 0x37,
            0x07, 0x34,
        ],
    )?;
    cipher(
        rt,
        "FIPS 197 appendix C.1",
        [0, 1, 2, 3, 4, 5, 6, 7, 8, 9, 10, 11, 12, 13, 14, 15],
        [
            0x00, 0x11, 0x22, 0x33, 0x44, 0x55, 0x66, 0x77, 0x88, 0x99, 0xaa, 0xbb, 0xcc, 0xdd,
            0xee, 0xff,
        ],
    )
}

// Wraps a key under the KEK of RFC 3394, section 4.1, and unwraps the result.
fn wrap(rt: &impl Print, name: &str, key: &[u8]) -> io::Result<()> {
    let kek = [0, 1, 2, 3, 4, 5, 6, 7, 8, 9, 10, 11, 12, 13, 14, 15];
    let mut out = [0; 200];
    let Ok(n) = keywrap_aes::wrap(kek, key, &mut out) else {
        return Ok(());
    };
    let wrapped = &out[..n.min(200)];
    line(rt, name, wrapped)?;
    let mut back = [0; 200];
    let Ok(n) = keywrap_aes::unwrap(kek, wrapped, &mut back) else {
        return Ok(());
    };
    line(rt, name, &back[..n.min(200)])
}

// 192 bytes, of which byte i is 7 i + 3 modulo 256.
fn counted() -> [u8; 192] {
    let mut r = [0; 192];
    for i in 0..192 {
        r[i] = ((7 * i + 3) % 256) as u8;
    }
    r
}

// RFC 3394, section 4.1; and four longer keys under its KEK, which are not published.
fn rfc_3394(rt: &impl Print) -> io::Result<()> {
    wrap(
        rt,
        "RFC 3394 section 4.1",
        &[
            0x00, 0x11, 0x22, 0x33, 0x44, 0x55, 0x66, 0x77, 0x88, 0x99, 0xaa, 0xbb, 0xcc, 0xdd,
            0xee, 0xff,
        ],
    )?;
    let key = counted();
    wrap(rt, "RFC 3394 24 bytes", &key[..24])?;
    wrap(rt, "RFC 3394 32 bytes", &key[..32])?;
    wrap(rt, "RFC 3394 64 bytes", &key[..64])?;
    wrap(rt, "RFC 3394 192 bytes", &key)
}

fn main(rt: HostRuntime) -> io::Result<()> {
    nist(&rt)?;
    edges(&rt)?;
    sha_1(&rt)?;
    rfc_4231(&rt)?;
    rfc_2202(&rt)?;
    fips_197(&rt)?;
    rfc_3394(&rt)
}
