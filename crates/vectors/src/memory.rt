// How the vectors fill memory and sum it up: SplitMix64's output function and FNV-1a of 64 bits.

// An element of memory that a call writes: a word, a set or an entry of a page.
pub trait Element: Copy + Into<u64> {
    // A number, cut to the element's width.
    fn cut(x: u64) -> Self;
}

impl Element for u64 {
    fn cut(x: u64) -> u64 {
        x
    }
}

impl Element for u32 {
    fn cut(x: u64) -> u32 {
        (x & 0xffff_ffff) as u32
    }
}

impl Element for u16 {
    fn cut(x: u64) -> u16 {
        (x & 0xffff) as u16
    }
}

// What element i holds of memory that is filled from `base` on.
pub fn filling(base: u64, i: usize) -> u64 {
    let a = base
        .wrapping_add(i as u64)
        .wrapping_add(0x9E37_79B9_7F4A_7C15);
    let b = (a ^ (a >> 30)).wrapping_mul(0xBF58_476D_1CE4_E5B9);
    let c = (b ^ (b >> 27)).wrapping_mul(0x94D0_49BB_1331_11EB);
    c ^ (c >> 31)
}

pub fn fill<T: Element>(out: &mut [T], base: u64) {
    for (i, x) in out.iter_mut().enumerate() {
        *x = T::cut(filling(base, i));
    }
}

const START: u64 = 0xCBF2_9CE4_8422_2325;

// The digest `d` with one byte more.
// Kept (point 4): a step of the digest, and no conversion: FNV-1a is this one product.
fn with_byte(d: u64, b: u8) -> u64 {
    (d ^ u64::from(b)).wrapping_mul(0x100_0000_01B3)
}

fn with_bytes(d: u64, bytes: &[u8]) -> u64 {
    bytes.iter().fold(d, |d, b| with_byte(d, *b))
}

pub fn digest_bytes(bytes: &[u8]) -> u64 {
    with_bytes(START, bytes)
}

// With a word's 8 bytes, lowest first.
// Kept (point 4): a step of the digest; the conversion is `to_le_bytes`.
fn with_word(d: u64, x: u64) -> u64 {
    with_bytes(d, &x.to_le_bytes())
}

// An element counts as a word, however wide it is.
pub fn digest<T: Element>(out: &[T]) -> u64 {
    out.iter().fold(START, |d, x| with_word(d, (*x).into()))
}
