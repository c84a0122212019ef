// A list of few values, for code that has no heap.
ghost use Rattle.std.specs.Prelude.{◌≡◌, ◌≤◌, ⊤, length};

use std::alloc::AllocError;

// A list has no room for one more value.
#[derive(Clone, Copy, PartialEq, Eq, Debug)]
pub struct Full;

// A list of at most N values, held in the value itself: the first `len` places. A literal owes that there are so many.
// By hand, since there is no heap for a Vec, and the pieces that hold a list are Copy, as an ArrayVec is not.
pub struct ShortList<T, const N: usize> {
    pub places: [T; N],
    pub len: usize,
    ghost room: { length places ≡ N },
    ghost few: { len ≤ N },
}

// By hand: a derive of Clone over a ghost field is refused in a generic type.
impl<T: Copy, const N: usize> Clone for ShortList<T, N> {
    ghost is_clone = { λ x y. y ≡ x };

    ghost is_infallible = { λ _. ⊤ };

    fn clone(&self) -> Result<Self, AllocError> {
        Ok(*self)
    }
}

impl<T: Copy, const N: usize> Copy for ShortList<T, N> {}

impl<T: Copy, const N: usize> ShortList<T, N> {
    ghost use Rattle.std.specs.Prelude.{[], ◌∷◌, ◌++◌, if◌then◌else◌, Some, None, Ok, Err, IsErr, nat_lt, nat_le};
    ghost use Rattle.std.specs.Option.{option_map};
    ghost use Rattle.part.specs.Lists.{listed};

    // The list of no values. The spare value stands in the places that are free.
    pub fn empty(spare: T) -> Self
        ensures { listed result ≡ [] }
    {
        ShortList {
            places: [spare; N],
            len: 0,
        }
    }

    // The list of the values of a slice, or none where there are more than N.
    pub fn from_slice(spare: T, values: &[T]) -> Option<Self>
        ensures { option_map listed result ≡ (if nat_le (length values.now) N then Some values.now else None) }
    {
        if values.len() > N {
            return None;
        }
        let mut places = [spare; N];
        places[..values.len()].copy_from_slice(values);
        Some(ShortList {
            places,
            len: values.len(),
        })
    }

    // How many values are in the list.
    pub fn len(&self) -> usize
        ensures { result ≡ length (listed self.now) }
    {
        self.as_slice().len()
    }

    // The values, in order.
    pub fn as_slice(&self) -> &[T]
        ensures { result.now ≡ listed self.now }
    {
        &self.places[..self.len]
    }

    // Adds a value at the end. A full list refuses it, and stays as it was.
    pub fn push(&mut self, value: T) -> Result<(), Full>
        ensures answer { result ≡ (if nat_lt (length (listed self.old)) N then Ok tt else Err (record {})) }
        ensures after { listed self.new ≡ (if nat_lt (length (listed self.old)) N then listed self.old ++ value ∷ [] else listed self.old) }
        ensures untouched { IsErr result → self.new ≡ self.old }
    {
        if self.len == N {
            return Err(Full);
        }
        self.places[self.len] = value;
        self.len += 1;
        Ok(())
    }
}
