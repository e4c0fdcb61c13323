// What a short list in a table does.
ghost use Rattle.std.specs.Prelude.{◌≡◌, ◌<◌, ◌≤◌, [], ◌∷◌, ◌++◌, length, replicate, slice_set};
ghost use Rattle.values.specs.Few.{items};

use super::Few;

impl<T: Copy, const N: usize> Few<T, N> {
    // No item; the table is filled up with `blank`.
    pub fn new(blank: T) -> Few<T, N>
        ensures { items result ≡ [] }
    {
        Few {
            table: [blank; N],
            count: 0,
        }
    }

    // So many times the same item.
    #[tactic(auto, using(crate::proofs::Steps::table_steps))]
    pub fn filled(item: T, count: usize) -> Few<T, N>
        requires { count ≤ N }
        ensures { items result ≡ replicate count item }
    {
        Few {
            table: [item; N],
            count,
        }
    }

    pub fn len(&self) -> usize
        ensures value { result ≡ length (items self.now) }
        ensures few { result ≤ N }
    {
        self.as_slice().len()
    }

    pub fn as_slice(&self) -> &[T]
        ensures value { result.now ≡ items self.now }
        ensures few { length (items self.now) ≤ N }
    {
        let table = &self.table[..];
        &table[..self.count]
    }

    // Adds an item at the end, where there is room.
    pub fn push(&mut self, item: T)
        requires { length (items self.old) < N }
        ensures { items self.new ≡ items self.old ++ (item ∷ []) }
    {
        self.table[self.count] = item;
        self.count += 1;
    }

    // Puts another item in the place of one that is there.
    #[tactic(auto, using(crate::proofs::Steps::table_steps))]
    pub fn set(&mut self, index: usize, item: T)
        requires { index < length (items self.old) }
        ensures { items self.new ≡ slice_set (items self.old) index item }
    {
        let table = &mut self.table[..];
        table[index] = item;
    }
}
