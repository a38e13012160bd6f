// What lent room holds before a call, whether it still does from a place on, and whether it begins with other numbers.

// A number by its bits.
pub trait Bits: Copy {
    // Of the word's lowest bits.
    fn of_bits(word: u64) -> Self;

    fn bits(self) -> u64;
}

impl Bits for u8 {
    fn of_bits(word: u64) -> u8 {
        (word % 0x100) as u8
    }

    fn bits(self) -> u64 {
        u64::from(self)
    }
}

impl Bits for u32 {
    fn of_bits(word: u64) -> u32 {
        (word % 0x1_0000_0000) as u32
    }

    fn bits(self) -> u64 {
        u64::from(self)
    }
}

impl Bits for f64 {
    fn of_bits(word: u64) -> f64 {
        doubles::of_bits(word)
    }

    fn bits(self) -> u64 {
        doubles::to_bits(self)
    }
}

// The mark at place i: a byte that no text has, an index of no vertex, a double of a magnitude that no text gives.
fn mark_at<T: Bits>(i: usize) -> T {
    T::of_bits(0xabcd_8080 | (i as u64 & 0x7f7f))
}

pub fn mark<T: Bits>(room: &mut [T]) {
    for (i, x) in room.iter_mut().enumerate() {
        *x = mark_at(i);
    }
}

// Whether the room has its marks from this place on.
pub fn kept<T: Bits>(room: &[T], from: usize) -> bool {
    room.iter()
        .enumerate()
        .skip(from)
        .all(|(i, x)| x.bits() == mark_at::<T>(i).bits())
}

// Whether the room begins with these numbers, bit for bit.
pub fn begins<T: Bits>(room: &[T], front: &[T]) -> bool {
    front.len() <= room.len() && room.iter().zip(front).all(|(x, y)| x.bits() == y.bits())
}
