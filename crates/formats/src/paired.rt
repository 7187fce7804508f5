// Two neighbouring pixels together.

/// Two neighbouring pixels share four bytes.
#[derive(Clone, Copy)]
pub struct Paired;
