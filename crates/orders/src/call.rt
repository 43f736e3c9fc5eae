// A call on an order, with what it is given.
#[derive(Clone, Copy)]
pub enum Call<'a> {
    // a name, and the value that it is to have
    Alias(&'a [u8], &'a [u8]),
    Unalias(&'a [u8]),
    Load(&'a [u8]),
    Unload,
    // a script
    List(&'a [u8]),
}
