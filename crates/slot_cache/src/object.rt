//! The objects of the cache.

ghost use Rattle.std.specs.Prelude.{◌≡◌, ◌<◌, ◌≤◌};
ghost use Rattle.slot_cache.specs.Object.{length_of, object_of, word_of};

/// The page of an object, which has 1 to 8 words: after them the words of the page are 0.
pub type Object = [u64; 8];

/// How many words the object of a key has.
pub fn length_of(key: u32) -> usize
    ensures value { result ≡ length_of key }
    ensures range { (0 < result) × (result ≤ 8) }
{
    1 + key as usize % 8
}

/// The page of the object that belongs to a key.
pub fn object_of(key: u32) -> Object
    ensures { result ≡ object_of key }
{
    [
        word_of(key, 0),
        word_of(key, 1),
        word_of(key, 2),
        word_of(key, 3),
        word_of(key, 4),
        word_of(key, 5),
        word_of(key, 6),
        word_of(key, 7),
    ]
}

/// A word of the page of an object.
fn word_of(key: u32, at: u32) -> u64
    ensures { result ≡ word_of key at }
{
    if (at as usize) < length_of(key) {
        8 * u64::from(key) + u64::from(at)
    } else {
        0
    }
}
