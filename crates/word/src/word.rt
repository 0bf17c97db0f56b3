// Whole numbers modulo 2^32, each as a word.
ghost use Rattle.std.specs.Prelude.{◌≡◌, ◌%◌, ◌^◌, is_some, ◌==◌};
ghost use Rattle.std.specs.Option.{option_map};
ghost use Rattle.modular.specs.Below.{Below, one_part};
ghost use Rattle.modular.specs.Least.{LeastOf};
ghost use Rattle.word.specs.Words.{words, words_big, word_value, word_parts_tell};

use ring::Ring;

// No `Residue`, as 2^32 is no u32; nothing is reduced to compare, and Newton inverts.
#[derive(Clone, Copy)]
pub struct Word {
    pub word: u32,
}

impl Word {
    // `n` by its least residue.
    fn least(n: u64) -> Word
        ensures { LeastOf (2 ^ 32) words_big result.word n }
    {
        Word {
            word: (n % 4294967296) as u32,
        }
    }
}

impl Ring for Word {
    ghost Num = { Below (2 ^ 32) };

    ghost ring = { words };

    ghost value = { word_value };

    ghost count = { 1 };

    ghost parts = { one_part };

    ghost told = { word_parts_tell };

    fn zero() -> Word {
        Word { word: 0 }
    }

    fn one() -> Word {
        Word { word: 1 }
    }

    fn add(self, other: Word) -> Word {
        Word::least(self.word as u64 + other.word as u64)
    }

    fn neg(self) -> Word {
        Word::least(4294967296 - self.word as u64)
    }

    fn mul(self, other: Word) -> Word {
        Word::least(self.word as u64 * other.word as u64)
    }

    fn sub(self, other: Word) -> Word {
        Word::least(4294967296 + self.word as u64 - other.word as u64)
    }

    fn mul_add(self, factor: Word, term: Word) -> Word {
        Word::least(self.word as u64 * factor.word as u64 + term.word as u64)
    }

    fn equals(self, other: Word) -> bool {
        self.word == other.word
    }

    // The units are the odd ones.
    fn inverse(self) -> Option<Word>
        ensures is { option_map word_value result ≡ words.inverse (word_value self) }
        ensures odd { is_some result ≡ (self.word % 2 == 1) }
    {
        if self.word % 2 == 0 {
            return None;
        }
        // Newton's step squares the error 1 - a x. It begins at (1 - a)^2, a multiple of 4,
        // and four steps later it is a multiple of 2^32.
        let two = Word { word: 2 };
        let mut x = two.sub(self);
        for _ in 0..4u32 {
            x = x.mul(two.sub(self.mul(x)));
        }
        Some(x)
    }

    fn part_count() -> usize {
        1
    }

    fn part(self, i: usize) -> Option<u32> {
        (i == 0).then_some(self.word)
    }

    fn natural(n: u64) -> Word {
        Word::least(n)
    }
}
