//! Names of eight letters: some that collide in a map without keys, and some at random.
use std::alloc::Global;
use std::hash::{DefaultHasher, Hasher};
use std::process::Abort;

pub(crate) type Name = [u8; 8];

/// So many names collide under the quick hash, which makes a map change to the other one.
const QUICK: u32 = 600;

/// The quick hash of a map, of which fifteen bits count.
fn quick_hash(name: &[u8]) -> u32 {
    let mut hash = 0x2325u32;
    for byte in name {
        hash = ((hash ^ u32::from(*byte)) & 0x7fff).wrapping_mul(0x1b3) & 0x7fff;
    }
    hash
}

/// The hash of a map without keys, of which fifteen bits count.
fn keyless_hash(name: &[u8]) -> u64 {
    let mut hasher = DefaultHasher::new();
    for byte in name {
        hasher.write_u8(*byte);
    }
    hasher.finish() & 0x7fff
}

/// The number in letters.
fn name_of(number: u32) -> Name {
    let mut name = *b"aaaaaaaa";
    let mut rest = number;
    for byte in name.iter_mut() {
        *byte = b'a' + (rest % 16) as u8;
        rest /= 16;
    }
    name
}

/// Whether the name is hashed to where the others of its kind are, behind so many of them.
fn collides(name: &[u8], count: u32) -> bool {
    if count < QUICK {
        quick_hash(name) == 0x111
    } else {
        keyless_hash(name) / 64 == 3
    }
}

/// The number after this one, at random (Numerical Recipes' generator, which repeats after 2^32).
fn next_at_random(number: u32) -> u32 {
    number.wrapping_mul(1_664_525).wrapping_add(1_013_904_223)
}

/// So many names that collide.
pub(crate) fn colliding_names(rt: &impl Abort, alloc: Global, count: u32) -> Vec<Name> {
    let mut names = Vec::new(alloc);
    let mut found = 0u32;
    for number in 0..u32::MAX {
        if found >= count {
            break;
        }
        let name = name_of(number);
        if collides(&name, found) {
            names.push(name).expect(rt, "memory");
            found += 1;
        }
    }
    names
}

/// So many names at random.
pub(crate) fn ordinary_names(rt: &impl Abort, alloc: Global, count: u32) -> Vec<Name> {
    let mut names = Vec::new(alloc);
    let mut number = 1u32;
    for _ in 0..count {
        number = next_at_random(number);
        names.push(name_of(number)).expect(rt, "memory");
    }
    names
}
