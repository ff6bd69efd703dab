// Lists the file on standard input, under release 1.2. The buffer is longer than the longest file that is listed, so that a longer one is seen.
#![tactic(auto)]

use format::Release;
use std::io;
use std::io::{Read, Write};

fn main(rt: HostRuntime) -> io::Result<()> {
    let mut buffer = [0u8; 65568];
    let mut input = rt.stdin();
    let mut n: usize = 0;
    // a while loop: each read says how much it got, and read_to_end would take heap
    while n < buffer.len() {
        let got = input.read(&mut buffer[n..])?;
        if got == 0 {
            break;
        }
        n += got;
    }
    let text = listing::list(&buffer[..n], Release::R12);
    rt.stdout().write_all(text.as_bytes())
}
