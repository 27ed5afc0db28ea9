//! How often something occurs.

/// How often something occurs, and the first of it.
#[derive(Clone, Copy)]
pub struct Occurs<T> {
    pub count: u32,
    pub first: Option<T>,
}

impl<T: Copy> Occurs<T> {
    /// Not yet.
    pub fn never() -> Occurs<T> {
        Occurs {
            count: 0,
            first: None,
        }
    }

    /// Once more.
    pub fn note(&mut self, once: T) {
        if self.first.is_none() {
            self.first = Some(once);
        }
        self.count = self.count.saturating_add(1);
    }
}
