// What no clause says: that the tables and the texts are the ones that are written down.
use crate::{Command, Dir, Mode, Span, WordWhy, clock, read_words};
use std::alloc::{AllocError, Global};

#[test]
fn time_of_three_slots(rt: HostRuntime) {
    assert_eq!(rt; clock(4_319, 0), (4, 18, 60));
    assert_eq!(rt; clock(4_319, 1), (1, 1, 1));
    assert_eq!(rt; clock(68, 0), (1, 18, 1));
}

fn words(alloc: Global, line: &str) -> Result<Vec<String>, AllocError> {
    let mut all = Vec::new(alloc);
    for word in line.split(' ') {
        all.push(String::from_str(alloc, word)?)?;
    }
    Ok(all)
}

#[test]
fn faulty_words(rt: HostRuntime) -> Result<(), AllocError> {
    let rows = [
        ("code", 0, WordWhy::UnknownCommand),
        ("encode x", 1, WordWhy::NotPair),
        ("encode x=1", 1, WordWhy::UnknownKey),
        ("encode form=audit", 1, WordWhy::NotHere),
        ("encode cc=1 cc=1", 2, WordWhy::Repeated),
        ("encode cc=1 cc=01", 2, WordWhy::Repeated),
        ("encode cc=01", 1, WordWhy::BadNumber),
        ("encode cc=", 1, WordWhy::BadNumber),
        ("encode cc=+1", 1, WordWhy::BadNumber),
        ("encode cc=1=1", 1, WordWhy::BadNumber),
        ("encode mcc=1024", 1, WordWhy::OutOfRange),
        ("encode cc=64", 1, WordWhy::OutOfRange),
        ("gen slots=0", 1, WordWhy::OutOfRange),
        (
            "gen draw=1000000000000000000000000000000000000000",
            1,
            WordWhy::OutOfRange,
        ),
        ("decode form=full", 1, WordWhy::UnknownValue),
        ("encode ts1=cb", 1, WordWhy::NotUplink),
        ("encode ts2=sig ts1=cb ts3=cb dir=dl", 2, WordWhy::NotUplink),
        ("encode ts1=cb cc=64", 2, WordWhy::OutOfRange),
    ];
    for (line, index, why) in rows {
        match read_words(&words(rt.alloc(), line)?) {
            Ok(_) => assert!(rt; false, "{line}"),
            Err(fault) => assert!(rt; fault.index == index && fault.why == why, "{line}"),
        }
    }
    Ok(())
}

#[test]
fn given_words(rt: HostRuntime) -> Result<(), AllocError> {
    let line =
        "trial ts2=d48n4 dir=ul mcc=901 mnc=16383 cc=1 ts4=cb draw=18446744073709551615 at=68";
    match read_words(&words(rt.alloc(), line)?) {
        Ok((command, settings)) => {
            assert_eq!(rt; command, Command::Trial);
            assert_eq!(rt; settings.dir, Dir::Ul);
            assert_eq!(rt;
                settings.modes,
                [Mode::Sig, Mode::D48(Span::Four), Mode::Sig, Mode::Cb]
            );
            assert_eq!(rt;
                (settings.colour.mcc, settings.colour.mnc, settings.colour.cc),
                (901, 16_383, 1)
            );
            assert_eq!(rt;
                (settings.at, settings.max, settings.slots, settings.damage),
                (68, 1_000_000, 1, 0)
            );
            assert_eq!(rt; settings.draw, 18_446_744_073_709_551_615);
        }
        Err(_) => assert!(rt; false),
    }
    Ok(())
}
