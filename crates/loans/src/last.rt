// The stroke that an undo takes back.
use crate::newest::Newest;

// What an undo takes back: the newest stroke of the loan at a position among the loans out.
#[derive(Clone, Copy)]
pub(crate) struct Last {
    pub(crate) position: usize,
    pub(crate) newest: Newest,
}
