//! What a call says beside its text.

ghost use Rattle.std.specs.Prelude.{◌≡◌};

/// The status with which a call ended, and the length of its text.
#[repr(C)]
#[derive(Clone, Copy)]
pub struct FbAnswer {
    pub status: u64,
    pub count: u64,
}

impl FbAnswer {
    pub fn of(status: u8, count: usize) -> FbAnswer
        ensures status { result.status ≡ status }
        ensures count { result.count ≡ count }
    {
        FbAnswer {
            status: u64::from(status),
            count: count as u64,
        }
    }
}
