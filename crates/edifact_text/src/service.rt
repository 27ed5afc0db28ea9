/// The service characters of an interchange: two separators, the decimal mark, a release character
/// or none, and the terminator.
#[derive(Clone, Copy)]
pub(crate) struct Service {
    pub(crate) component: u8,
    pub(crate) element: u8,
    pub(crate) mark: u8,
    pub(crate) release: Option<u8>,
    pub(crate) terminator: u8,
}

/// The separators at either of which a component ends.
#[derive(Clone, Copy)]
pub(crate) struct Ends {
    pub(crate) element: u8,
    pub(crate) component: u8,
}
