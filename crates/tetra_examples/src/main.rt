//! Three small programs over the library, one in each file: the trellis decoder by itself, the checker on a table from
//! elsewhere, and a sender and a receiver in memory. docs/LIBRARY.md walks through them.
#![tactic(auto)]

mod check_table;
mod decode_block;
mod send_and_receive;

use check_table::check_tables;
use decode_block::decode_block;
use send_and_receive::send_and_receive;

fn main(rt: HostRuntime) -> anyhow::Result<()> {
    let (metric, is_sent) = decode_block();
    println!(rt; "decoded: metric {metric}, the message that was sent: {is_sent}")?;
    let (silent, changed) = check_tables();
    println!(rt; "checked: {silent:?}, then {changed:?}")?;
    let words = [
        String::from_str(rt.alloc(), "decode")?,
        String::from_str(rt.alloc(), "dir=ul")?,
    ];
    match send_and_receive(&words) {
        Some((mark, metric)) => println!(rt; "received: {mark:?}, metric {metric}")?,
        None => println!(rt; "received nothing")?,
    }
    Ok(())
}
