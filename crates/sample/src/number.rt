// The unsigned integers, each with the number that it is and the value that a number is read as. It is not
// std's From and TryFrom: a number that does not fit is cut, and clauses name the value itself.
ghost use Rattle.std.specs.Prelude.{◌≡◌, ℕ, ◌%◌, ◌^◌};

pub trait Number: Copy {
    // The value that a number is read as.
    ghost read_as: { ℕ → Self };

    // The number that a value is.
    ghost number: { Self → ℕ };

    fn of(n: u64) -> Self
        ensures { result ≡ read_as n };

    fn number(self) -> u64
        ensures { result ≡ number self };
}

impl Number for u8 {
    ghost read_as = { λ n. n % 2 ^ 8 };

    ghost number = { λ x. x };

    fn of(n: u64) -> u8 {
        (n % 0x100) as u8
    }

    fn number(self) -> u64 {
        u64::from(self)
    }
}

impl Number for u16 {
    ghost read_as = { λ n. n % 2 ^ 16 };

    ghost number = { λ x. x };

    fn of(n: u64) -> u16 {
        (n % 0x1_0000) as u16
    }

    fn number(self) -> u64 {
        u64::from(self)
    }
}

impl Number for u32 {
    ghost read_as = { λ n. n % 2 ^ 32 };

    ghost number = { λ x. x };

    fn of(n: u64) -> u32 {
        (n % 0x1_0000_0000) as u32
    }

    fn number(self) -> u64 {
        u64::from(self)
    }
}

impl Number for u64 {
    ghost read_as = { λ n. n };

    ghost number = { λ x. x };

    fn of(n: u64) -> u64 {
        n
    }

    fn number(self) -> u64 {
        self
    }
}
