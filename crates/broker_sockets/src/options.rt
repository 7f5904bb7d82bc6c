//! What is served, and how.

/// An object to serve, and how.
#[derive(Clone, Copy)]
pub struct ServeOptions<'a> {
    /// The port of TCP, on 127.0.0.1.
    pub port: u16,
    /// The object's key, an equals sign, and the name of its interface.
    pub object: &'a str,
    /// So many connections are served.
    pub connections: u32,
    /// So many of them at most at the same time: 0 is 1, and more than 64 are 64. Where there is no
    /// number, one after the other.
    pub at_once: Option<u8>,
    /// A connection ends on which no octets move for so many seconds. 0: none does.
    pub idle: u32,
}
