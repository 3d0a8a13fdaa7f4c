//! Whole scripts, with what the program makes of them.

/// A run of the program: its arguments and its script, and what comes of them.
#[derive(Clone, Copy)]
pub struct Case<'a> {
    pub name: &'a str,
    pub arguments: &'a [&'a str],
    pub script: &'a [u8],
    pub replies: &'a [u8],
    pub faults: &'a [u8],
    pub status: u8,
}

pub const NOTHING: Case = Case {
    name: "nothing",
    arguments: &[],
    script: b"",
    replies: b"",
    faults: b"",
    status: 0,
};

impl<'a> Case<'a> {
    /// A script that ends with a fault.
    pub fn stopped(name: &'a str, script: &'a [u8], replies: &'a [u8], faults: &'a [u8]) -> Self {
        Case {
            name,
            arguments: &[],
            script,
            replies,
            faults,
            status: 1,
        }
    }
}

pub const FIRST_SCRIPT: &[u8] =
    b"zone 0 1\nmap 0 0 0\nload 0 0 0 3\nstore 0 0 0 3 7\nload 0 0 0 3\ninfo 0\n";

pub const FIRST_REPLIES: &[u8] =
    b"ok\nok\nvalue=0\nok\nvalue=7\nfree=511 pages=1 moving=0 huge=0 whole=0\n";

/// With 194 spaces at its end the last line has 200 bytes.
pub const LONGEST_LINE: Case = Case {
    name: "a line of 200 bytes",
    replies: b"ok\nfree=512 pages=0 moving=0 huge=0 whole=1\n",
    ..NOTHING
};

/// With one more space it is too long.
pub const LONG_LINE: Case = Case {
    name: "a line of 201 bytes",
    replies: b"ok\n",
    faults: b"compactd: fault 42 at line 2\n",
    status: 1,
    ..NOTHING
};

/// Scripts by how their lines and their numbers are read.
pub fn lines() -> &'static [Case<'static>] {
    &LINES
}

static LINES: [Case<'static>; 10] = [
    NOTHING,
    Case {
        name: "a new zone",
        script: b"zone 0 1\ninfo 0\n",
        replies: b"ok\nfree=512 pages=0 moving=0 huge=0 whole=1\n",
        ..NOTHING
    },
    Case {
        name: "a page is mapped, read, written and read again",
        script: FIRST_SCRIPT,
        replies: FIRST_REPLIES,
        ..NOTHING
    },
    Case {
        name: "the largest number, and none after it",
        script: b"zone 0 1\nmap 0 0 0\nstore 0 0 0 7 18446744073709551615\nload 0 0 0 7\nstore 0 0 0 7 0\nload 0 0 0 7\n",
        replies: b"ok\nok\nok\nvalue=18446744073709551615\nok\nvalue=0\n",
        ..NOTHING
    },
    Case {
        name: "a line without its newline",
        script: b"zone 0 1\nstore 0 0 0 0 12",
        replies: b"ok\n",
        faults: b"compactd: fault 41 at line 2\n",
        status: 1,
        ..NOTHING
    },
    Case {
        name: "twenty digits, of which most are zeros",
        script: b"zone 0 1\nmap 0 0 0\nstore 0 0 0 0 00000000000000000009\nload 0 0 0 0\n",
        replies: b"ok\nok\nok\nvalue=9\n",
        ..NOTHING
    },
    Case {
        name: "a number of 21 digits",
        script: b"zone 0 1\nstore 0 0 0 0 000000000000000000009\n",
        replies: b"ok\n",
        faults: b"compactd: fault 41 at line 2\n",
        status: 1,
        ..NOTHING
    },
    Case {
        name: "spaces, zeros and lines that are skipped",
        script: b"  # a page\n\n zone  0 01 \n   \nmap 0 0 00000000000000000007\ninfo    0  \n",
        replies: b"ok\nok\nfree=511 pages=1 moving=0 huge=0 whole=0\n",
        ..NOTHING
    },
    Case {
        name: "arguments out of their ranges",
        script: b"zone 4 1\nzone 0 0\nzone 0 9\nmap 4 0 0\nmap 0 8 0\nmap 0 0 4096\nmapat 0 0 0 4096 unmovable\nstore 0 0 0 8 1\nload 0 0 0 8\ninfo 4\ninfo 4294967296\nscan 4\ntake 0 0\ncopy 0 5\nfinish 4 1\nshut 4\nlook 0 8 0\nshare 0 0 0 8 0\nshare 0 0 4096 0 0\nunmap 0 0 4096\npin 4 0 0\nunpin 0 8 0\nhuge 4\ngive 0 8\nfill 4 0 0 1\nfill 0 8 0 1\nfill 0 0 0 4097\nthin 4 0 0 1 1\nthin 0 8 0 1 1\nthin 0 0 0 4097 1\ncompact 4\npool 4 1\npool 0 0\npool 0 9\n",
        replies: b"refused 1\nrefused 1\nrefused 1\nrefused 1\nrefused 1\nrefused 1\nrefused 1\nrefused 1\nrefused 1\nrefused 1\nrefused 1\nrefused 1\nrefused 1\nrefused 1\nrefused 1\nrefused 1\nrefused 1\nrefused 1\nrefused 1\nrefused 1\nrefused 1\nrefused 1\nrefused 1\nrefused 1\nrefused 1\nrefused 1\nrefused 1\nrefused 1\nrefused 1\nrefused 1\nrefused 1\nrefused 1\nrefused 1\nrefused 1\n",
        ..NOTHING
    },
    Case {
        name: "arguments of profile 2 out of their ranges",
        script: b"profile 2\npool 0 9 3\npool 0 1 2\npool 0 1 10\nhuge 0 2\nhuge 0 10\ngive 0 4096 3\ngive 0 0 2\nmark 0 8\nunmark 4 0\n",
        replies: b"ok\nrefused 1\nrefused 1\nrefused 1\nrefused 1\nrefused 1\nrefused 1\nrefused 1\nrefused 1\nrefused 1\n",
        ..NOTHING
    },
];

/// Pages, their addresses, and series of them.
pub fn pages() -> &'static [Case<'static>] {
    &PAGES
}

static PAGES: [Case<'static>; 10] = [
    Case {
        name: "zones that can't be opened",
        script: b"info 0\nzone 4 1\nzone 0 9\nzone 0 1\nzone 0 1\n",
        replies: b"refused 43\nrefused 1\nrefused 1\nok\nrefused 44\n",
        ..NOTHING
    },
    Case {
        name: "the zone with the number 2",
        script: b"zone 2 1\nmap 2 0 0\nstore 2 0 0 1 5\nload 2 0 0 1\ninfo 2\ninfo 0\nzone 0 1\n",
        replies: b"ok\nok\nok\nvalue=5\nfree=511 pages=1 moving=0 huge=0 whole=0\nrefused 43\nrefused 44\n",
        ..NOTHING
    },
    Case {
        name: "a page has four addresses at most",
        script: b"zone 0 1\nmap 0 0 0\nshare 0 0 0 1 9\nstore 0 1 9 2 5\nload 0 0 0 2\nshare 0 0 0 2 0\nshare 0 0 0 3 0\nshare 0 0 0 4 0\n",
        replies: b"ok\nok\nok\nok\nvalue=5\nok\nok\nrefused 7\n",
        ..NOTHING
    },
    Case {
        name: "a page with a pin keeps its last address",
        script: b"zone 0 1\nmap 0 0 0\npin 0 0 0\nunmap 0 0 0\nunpin 0 0 0\nunpin 0 0 0\ngive 0 0\ninfo 0\n",
        replies: b"ok\nok\nok\nrefused 10\nok\nrefused 9\nrefused 12\nfree=511 pages=1 moving=0 huge=0 whole=0\n",
        ..NOTHING
    },
    Case {
        name: "a page number is used again",
        script: b"zone 0 1\nmap 0 0 0\nstore 0 0 0 0 9\nunmap 0 0 0\nload 0 0 0 0\nmap 0 0 5\nload 0 0 5 0\n",
        replies: b"ok\nok\nok\nok\nrefused 3\nok\nvalue=0\n",
        ..NOTHING
    },
    Case {
        name: "frames that aren't in the zone",
        script: b"zone 1 1\nmapat 1 0 0 512\nmapat 1 0 0 4096\n",
        replies: b"ok\nrefused 1\nrefused 1\n",
        ..NOTHING
    },
    Case {
        name: "a series stops at its first refusal",
        script: b"zone 0 1\nfill 0 0 4094 5\nthin 0 0 4094 3 0\n",
        replies: b"ok\ndone=2 refused=1\ndone=1 refused=3\n",
        ..NOTHING
    },
    Case {
        name: "a zone is filled up",
        script: b"zone 0 1\nfill 0 0 0 512\nmap 0 0 512\nfill 0 1 0 1\ninfo 0\n",
        replies: b"ok\ndone=512\nrefused 6\ndone=0 refused=6\nfree=0 pages=512 moving=0 huge=0 whole=0\n",
        ..NOTHING
    },
    Case {
        name: "every second page goes",
        script: b"zone 0 4\nfill 0 0 0 1024\nthin 0 0 0 512 2\ninfo 0\n",
        replies: b"ok\ndone=1024\ndone=512\nfree=1536 pages=512 moving=0 huge=0 whole=2\n",
        ..NOTHING
    },
    Case {
        name: "a series of no calls, and addresses past the largest number",
        script: b"zone 0 1\nfill 0 0 4096 0\nthin 0 0 18446744073709551615 2 18446744073709551615\nmap 0 0 7\nthin 0 0 7 2 18446744073709551615\nfill 0 0 0 4097\n",
        replies: b"ok\ndone=0\ndone=0 refused=1\nok\ndone=1 refused=1\nrefused 1\n",
        ..NOTHING
    },
];

/// Moves of pages by hand.
pub fn moves() -> &'static [Case<'static>] {
    &MOVES
}

static MOVES: [Case<'static>; 7] = [
    Case {
        name: "a page is moved, with its words",
        script: b"zone 0 1\nmap 0 0 0\nstore 0 0 0 1 8\nscan 0\ninfo 0\ntake 0 1\ncopy 0 1\nfinish 0 1\nload 0 0 0 1\nlook 0 0 0\n",
        replies: b"ok\nok\nok\nserial=0\nfree=510 pages=1 moving=1 huge=0 whole=0\nserial=0\nok\nmoved serial=0\nvalue=8\nframe=511 dirty=1 unmovable=0 pins=0 maps=1\n",
        ..NOTHING
    },
    Case {
        name: "a page that no hand copied is put back",
        script: b"zone 0 1\nmap 0 0 0\nscan 0\nshut 0\nlook 0 0 0\nscan 0\n",
        replies: b"ok\nok\nserial=0\nback=1\nframe=0 dirty=0 unmovable=0 pins=0 maps=1\nserial=1\n",
        ..NOTHING
    },
    Case {
        name: "two pages in two hands",
        script: b"zone 0 1\nmap 0 0 0\nmap 0 0 1\nscan 0\nscan 0\nscan 0\ntake 0 1\ntake 0 2\ntake 0 3\ncopy 0 2\nfinish 0 2\ncopy 0 1\nfinish 0 1\ncopy 0 1\nshut 0\n",
        replies: b"ok\nok\nok\nserial=0\nserial=1\nmet\nserial=0\nserial=1\nrefused 45\nok\nmoved serial=1\nok\nmoved serial=0\nrefused 45\nback=0\n",
        ..NOTHING
    },
    Case {
        name: "a page is pinned while it moves",
        script: b"zone 0 1\nmap 0 0 0\nstore 0 0 0 1 8\nscan 0\nload 0 0 0 1\nlook 0 0 0\ntake 0 1\npin 0 0 0\ncopy 0 1\nfinish 0 1\nload 0 0 0 1\nlook 0 0 0\n",
        replies: b"ok\nok\nok\nserial=0\nrefused 4\nmoving serial=0 pins=0 maps=1\nserial=0\nok\nok\nback serial=0 cause=1\nvalue=8\nframe=0 dirty=1 unmovable=0 pins=1 maps=1\n",
        ..NOTHING
    },
    Case {
        name: "each address of a page moves with it",
        script: b"zone 0 1\nmap 0 0 0\nshare 0 0 0 0 1\nshare 0 0 0 0 2\nshare 0 0 0 7 4095\nscan 0\nshare 0 0 0 0 3\nload 0 7 4095 0\nunmap 0 0 1\ntake 0 1\ncopy 0 1\nfinish 0 1\nunmap 0 0 1\nlook 0 7 4095\n",
        replies: b"ok\nok\nok\nok\nok\nserial=0\nrefused 4\nrefused 4\nrefused 4\nserial=0\nok\nmoved serial=0\nok\nframe=511 dirty=0 unmovable=0 pins=0 maps=3\n",
        ..NOTHING
    },
    Case {
        name: "a move makes a pageblock whole",
        script: b"zone 0 2\nmap 0 0 0\nscan 0\nhuge 0\ntake 0 1\ncopy 0 1\nfinish 0 1\nhuge 0\n",
        replies: b"ok\nok\nserial=0\nrefused 11\nserial=0\nok\nmoved serial=0\nblock=0\n",
        ..NOTHING
    },
    Case {
        name: "pages are filled in, taken in order and ended in the other",
        script: b"zone 0 1\nfill 0 0 0 2\nscan 0\nscan 0\nscan 0\ntake 0 1\ntake 0 2\ntake 0 3\ncopy 0 2\nfinish 0 2\ncopy 0 1\nfinish 0 1\nshut 0\n",
        replies: b"ok\ndone=2\nserial=0\nserial=1\nmet\nserial=0\nserial=1\nrefused 45\nok\nmoved serial=1\nok\nmoved serial=0\nback=0\n",
        ..NOTHING
    },
];

/// Blocks, marks, and the options.
pub fn blocks() -> &'static [Case<'static>] {
    &BLOCKS
}

static BLOCKS: [Case<'static>; 7] = [
    Case {
        name: "a pageblock is handed out and taken back",
        script: b"zone 0 2\nmapat 0 0 0 600\nhuge 0\nhuge 0\ngive 0 1\ngive 0 0\ngive 0 0\ninfo 0\n",
        replies: b"ok\nok\nblock=0\nrefused 11\nrefused 12\nok\nrefused 12\nfree=1023 pages=1 moving=0 huge=0 whole=1\n",
        ..NOTHING
    },
    Case {
        name: "blocks of three orders",
        script: b"profile 2\nzone 0 1\nmap 0 0 0\nhuge 0 3\nhuge 0 8\nhuge 0 9\ngive 0 8 4\ngive 0 8 3\ngive 0 12 3\ninfo 0\n",
        replies: b"ok\nok\nok\nframe=8 order=3\nframe=256 order=8\nrefused 11\nrefused 1\nok\nrefused 1\nfree=255 pages=1 moving=0 huge=1 whole=0 held=256\n",
        ..NOTHING
    },
    Case {
        name: "a block is given back under its own order alone",
        script: b"profile 2\nzone 0 2\nhuge 0 3\ngive 0 0 4\ngive 0 0\ngive 0 0 3\nhuge 0\ngive 0 0 8\ngive 0 0 9\nhuge 0 9\ngive 0 0\n",
        replies: b"ok\nok\nframe=0 order=3\nrefused 12\nrefused 12\nok\nblock=0\nrefused 12\nok\nframe=0 order=9\nok\n",
        ..NOTHING
    },
    Case {
        name: "marks of pageblocks that a zone doesn't have",
        script: b"profile 2\nzone 3 1\nmark 3 1\nmark 3 8\n",
        replies: b"ok\nok\nrefused 1\nrefused 1\n",
        ..NOTHING
    },
    Case {
        name: "a scan leaves a marked pageblock alone",
        script: b"profile 2\nzone 0 3\nmapat 0 0 0 0\nmapat 0 0 1 1024\nmark 0 2\nmark 0 2\nscan 0\nscan 0\ntake 0 1\ncopy 0 1\nfinish 0 1\nlook 0 0 0\nunmark 0 2\nunmark 0 2\ninfo 0\n",
        replies: b"ok\nok\nok\nok\nok\nrefused 17\nserial=0\nmet\nserial=0\nok\nmoved serial=0\nframe=1023 dirty=0 unmovable=0 pins=0 maps=1\nok\nrefused 18\nfree=1534 pages=2 moving=0 huge=0 whole=1 held=0\n",
        ..NOTHING
    },
    Case {
        name: "the options, each at its most",
        arguments: &["--copiers", "4", "--capacity=64", "--journal", "65536"],
        script: b"zone 0 1\n",
        replies: b"ok\n",
        ..NOTHING
    },
    Case {
        name: "a journal with room for one record",
        arguments: &["--journal", "1"],
        script: b"zone 0 1\nmap 0 0 0\nmap 0 0 1\n",
        replies: b"ok\nok\nrefused 2\n",
        ..NOTHING
    },
];

/// Where a profile may stand, and what may stand in profile 1.
pub fn profiles() -> &'static [Case<'static>] {
    &PROFILES
}

static PROFILES: [Case<'static>; 7] = [
    Case {
        name: "lines that are skipped before the profile",
        script: b"# blocks of all orders\n\nprofile   2\nzone 0 1\nhuge 0 4\n",
        replies: b"ok\nok\nframe=0 order=4\n",
        ..NOTHING
    },
    Case {
        name: "a profile on the second line",
        script: b"zone 0 1\nprofile 2\n",
        replies: b"ok\n",
        faults: b"compactd: fault 41 at line 2\n",
        status: 1,
        ..NOTHING
    },
    Case {
        name: "a profile that is told twice",
        script: b"profile 2\nprofile 2\n",
        replies: b"ok\n",
        faults: b"compactd: fault 41 at line 2\n",
        status: 1,
        ..NOTHING
    },
    Case {
        name: "a profile after a refusal",
        script: b"info 0\n#\nprofile 2\n",
        replies: b"refused 43\n",
        faults: b"compactd: fault 41 at line 3\n",
        status: 1,
        ..NOTHING
    },
    Case {
        name: "an order in profile 1",
        script: b"zone 0 1\nhuge 0 3\n",
        replies: b"ok\n",
        faults: b"compactd: fault 41 at line 2\n",
        status: 1,
        ..NOTHING
    },
    Case {
        name: "a mark in profile 1",
        script: b"zone 0 1\nmark 0 0\n",
        replies: b"ok\n",
        faults: b"compactd: fault 41 at line 2\n",
        status: 1,
        ..NOTHING
    },
    Case {
        name: "a profile that isn't to the letter",
        script: b"profile 02\n",
        replies: b"",
        faults: b"compactd: fault 41 at line 1\n",
        status: 1,
        ..NOTHING
    },
];

/// Clients beside rounds.
pub fn clients() -> &'static [Case<'static>] {
    &CLIENTS
}

static CLIENTS: [Case<'static>; 8] = [
    Case {
        name: "a client stores and loads in a page that is moved",
        script: b"zone 0 1\nmap 0 0 0\nduring 0\nstore 0 0 0 3 5\nload 0 0 0 3\nstore 0 0 0 3 6\nload 0 0 0 3\nend\nlook 0 0 0\n",
        replies: b"ok\nok\nok\nvalue=5\nok\nvalue=6\nisolated=1 moved=1 back=0 stopped=met\nframe=511 dirty=1 unmovable=0 pins=0 maps=1\n",
        ..NOTHING
    },
    Case {
        name: "a round beside a client takes no block",
        script: b"zone 0 2\nmap 0 0 0\nduring 0\nload 0 0 0 0\nend\ninfo 0\n",
        replies: b"ok\nok\nvalue=0\nisolated=1 moved=1 back=0 stopped=met\nfree=1023 pages=1 moving=0 huge=0 whole=1\n",
        ..NOTHING
    },
    Case {
        name: "no block while a round is open by hand, nor with a number that no zone has",
        script: b"zone 0 1\nmap 0 0 0\nscan 0\nduring 0\nunmap 0 0 0\nend\nduring 4\nunmap 4 0 0\nend\nshut 0\nduring 0\nload 0 0 0 7\nend\ninfo 0\n",
        replies: b"ok\nok\nserial=0\nrefused 45\nrefused 1\nback=1\nvalue=0\nisolated=1 moved=1 back=0 stopped=met\nfree=511 pages=1 moving=0 huge=0 whole=0\n",
        ..NOTHING
    },
    Case {
        name: "each call of a client, and refusals",
        script: b"zone 0 1\nduring 0\nmap 0 0 0 unmovable\nmapat 0 0 1 7 unmovable\nmapat 0 0 2 512\nmap 0 0 0\nmapat 0 0 2 7\nshare 0 0 0 1 0\nshare 0 0 0 0 1\nunmap 0 0 0\npin 0 1 0\nunmap 0 1 0\nunpin 0 1 0\nunpin 0 1 0\nload 0 0 0 0\nstore 0 1 0 8 1\nend\nlook 0 1 0\nlook 0 0 1\n",
        replies: b"ok\nok\nok\nrefused 1\nrefused 5\nrefused 6\nok\nrefused 5\nok\nok\nrefused 10\nok\nrefused 9\nrefused 3\nrefused 1\nisolated=0 moved=0 back=0 stopped=met\nframe=0 dirty=0 unmovable=1 pins=0 maps=1\nframe=7 dirty=0 unmovable=1 pins=0 maps=1\n",
        ..NOTHING
    },
    Case {
        name: "two blocks of one client, and a round of the script between them",
        arguments: &["--copiers", "4", "--capacity", "1"],
        script: b"zone 0 1\nfill 0 0 0 9\nduring 0\nstore 0 0 8 0 3\nshare 0 0 8 1 0\nend\ncompact 0\nduring 0\nunmap 0 0 8\nload 0 1 0 0\nend\nlook 0 1 0\n",
        replies: b"ok\ndone=9\nok\nok\nisolated=9 moved=9 back=0 stopped=met\nisolated=0 moved=0 back=0 stopped=met\nok\nvalue=3\nisolated=0 moved=0 back=0 stopped=met\nframe=503 dirty=1 unmovable=0 pins=0 maps=1\n",
        ..NOTHING
    },
    Case {
        name: "a page that is pinned before a block stays where it is, and so does a marked one",
        script: b"profile 2\nzone 0 2\nmap 0 0 0\nmapat 0 0 1 512\npin 0 0 0\nmark 0 1\nduring 0\npin 0 0 0\nstore 0 0 1 7 9\nunpin 0 0 0\nload 0 0 1 7\nend\nlook 0 0 0\nlook 0 0 1\n",
        replies: b"ok\nok\nok\nok\nok\nok\nok\nok\nok\nvalue=9\nisolated=0 moved=0 back=0 stopped=met\nframe=0 dirty=0 unmovable=0 pins=1 maps=1\nframe=512 dirty=1 unmovable=0 pins=0 maps=1\n",
        ..NOTHING
    },
    Case {
        name: "a client has the last place of the journal",
        arguments: &["--journal", "2"],
        script: b"zone 0 1\nmap 0 0 0\nduring 0\nload 0 0 0 0\nload 0 0 0 0\nunmap 0 0 0\nend\nlook 0 0 0\n",
        replies: b"ok\nok\nvalue=0\nrefused 2\nrefused 2\nisolated=0 moved=0 back=0 stopped=journalfull\nframe=0 dirty=0 unmovable=0 pins=0 maps=1\n",
        ..NOTHING
    },
    Case {
        name: "a client finds no free frame in a full zone",
        script: b"zone 0 1\nfill 0 0 0 512\nduring 0\nmap 0 0 512\nmapat 0 0 512 0\nend\n",
        replies: b"ok\ndone=512\nrefused 6\nrefused 6\nisolated=0 moved=0 back=0 stopped=met\n",
        ..NOTHING
    },
];

/// Blocks that are refused, or that aren't to the letter.
pub fn wrong_blocks() -> &'static [Case<'static>] {
    &WRONG_BLOCKS
}

static WRONG_BLOCKS: [Case<'static>; 8] = [
    Case {
        name: "another command in a block",
        script: b"zone 0 1\nduring 0\ninfo 0\n",
        replies: b"ok\n",
        faults: b"compactd: fault 41 at line 3\n",
        status: 1,
        ..NOTHING
    },
    Case {
        name: "a block without an end",
        script: b"zone 0 1\nduring 0\nload 0 0 0 0\n",
        replies: b"ok\n",
        faults: b"compactd: fault 41 at line 2\n",
        status: 1,
        ..NOTHING
    },
    Case {
        name: "a block without a zone",
        script: b"during 1\nload 1 0 0 0\nend\n",
        replies: b"refused 43\n",
        ..NOTHING
    },
    Case {
        name: "an end without a block",
        script: b"zone 0 1\nend\n",
        replies: b"ok\n",
        faults: b"compactd: fault 41 at line 2\n",
        status: 1,
        ..NOTHING
    },
    Case {
        name: "a block within a block",
        script: b"zone 0 1\nduring 0\nduring 0\nend\nend\n",
        replies: b"ok\n",
        faults: b"compactd: fault 41 at line 3\n",
        status: 1,
        ..NOTHING
    },
    Case {
        name: "a line that is too long in a block that is refused",
        script: b"during 0\n#########################################################################################################################################################################################################\nend\n",
        replies: b"",
        faults: b"compactd: fault 42 at line 2\n",
        status: 1,
        ..NOTHING
    },
    Case {
        name: "a client line of another zone",
        script: b"zone 0 1\nduring 0\nload 0 0 0 0\n# the next is of zone 1\nload 1 0 0 0\nend\n",
        replies: b"ok\n",
        faults: b"compactd: fault 41 at line 5\n",
        status: 1,
        ..NOTHING
    },
    Case {
        name: "an end without its newline",
        script: b"zone 0 1\nduring 0\nmap 0 0 0\nend",
        replies: b"ok\n",
        faults: b"compactd: fault 41 at line 4\n",
        status: 1,
        ..NOTHING
    },
];

/// Rounds on threads, by what they move.
pub fn rounds() -> &'static [Case<'static>] {
    &ROUNDS
}

static ROUNDS: [Case<'static>; 9] = [
    Case {
        name: "a round moves two pages up, and a pageblock is whole",
        script: b"zone 0 2\nmapat 0 0 0 0\nmapat 0 0 1 512\ninfo 0\ncompact 0\nlook 0 0 0\nlook 0 0 1\ninfo 0\n",
        replies: b"ok\nok\nok\nfree=1022 pages=2 moving=0 huge=0 whole=0\nisolated=2 moved=2 back=0 stopped=met\nframe=1023 dirty=0 unmovable=0 pins=0 maps=1\nframe=1022 dirty=0 unmovable=0 pins=0 maps=1\nfree=1022 pages=2 moving=0 huge=0 whole=1\n",
        ..NOTHING
    },
    Case {
        name: "a round over a full zone",
        script: b"zone 0 1\nfill 0 0 0 512\nmap 0 0 512\ncompact 0\n",
        replies: b"ok\ndone=512\nrefused 6\nisolated=0 moved=0 back=0 stopped=met\n",
        ..NOTHING
    },
    Case {
        name: "a round where the one free frame is the lowest",
        script: b"zone 0 1\nfill 0 0 0 512\nunmap 0 0 0\ncompact 0\n",
        replies: b"ok\ndone=512\nok\nisolated=0 moved=0 back=0 stopped=met\n",
        ..NOTHING
    },
    Case {
        name: "an unmovable page at the top of each pageblock",
        script: b"zone 0 8\nmapat 0 0 0 511 unmovable\nmapat 0 0 1 1023 unmovable\nmapat 0 0 2 1535 unmovable\nmapat 0 0 3 2047 unmovable\nmapat 0 0 4 2559 unmovable\nmapat 0 0 5 3071 unmovable\nmapat 0 0 6 3583 unmovable\nmapat 0 0 7 4095 unmovable\nhuge 0\ncompact 0\ninfo 0\n",
        replies: b"ok\nok\nok\nok\nok\nok\nok\nok\nok\nrefused 11\nisolated=0 moved=0 back=0 stopped=met\nfree=4088 pages=8 moving=0 huge=0 whole=0\n",
        ..NOTHING
    },
    Case {
        name: "one copier moves two pages, in which nothing is stored",
        arguments: &["--copiers", "1"],
        script: b"zone 0 1\nfill 0 0 0 2\ncompact 0\nlook 0 0 0\nload 0 0 0 0\n",
        replies: b"ok\ndone=2\nisolated=2 moved=2 back=0 stopped=met\nframe=511 dirty=0 unmovable=0 pins=0 maps=1\nvalue=0\n",
        ..NOTHING
    },
    Case {
        name: "one copier carries 512 pages up",
        arguments: &["--copiers", "1"],
        script: b"zone 0 4\nfill 0 0 0 1024\nthin 0 0 0 512 2\ninfo 0\ncompact 0\ninfo 0\n",
        replies: b"ok\ndone=1024\ndone=512\nfree=1536 pages=512 moving=0 huge=0 whole=2\nisolated=512 moved=512 back=0 stopped=met\nfree=1536 pages=512 moving=0 huge=0 whole=3\n",
        ..NOTHING
    },
    Case {
        name: "four copiers carry 512 pages up",
        arguments: &["--copiers", "4"],
        script: b"zone 0 4\nfill 0 0 0 1024\nthin 0 0 0 512 2\ninfo 0\ncompact 0\ninfo 0\n",
        replies: b"ok\ndone=1024\ndone=512\nfree=1536 pages=512 moving=0 huge=0 whole=2\nisolated=512 moved=512 back=0 stopped=met\nfree=1536 pages=512 moving=0 huge=0 whole=3\n",
        ..NOTHING
    },
    Case {
        name: "two copiers pack a zone in which every second page of the first 200 is gone",
        arguments: &["--copiers", "2", "--capacity", "8"],
        script: b"zone 0 4\nfill 0 0 0 1024\nthin 0 0 0 100 2\ncompact 0\ninfo 0\n",
        replies: b"ok\ndone=1024\ndone=100\nisolated=924 moved=924 back=0 stopped=met\nfree=1124 pages=924 moving=0 huge=0 whole=2\n",
        ..NOTHING
    },
    Case {
        name: "three copiers pack a zone in which every ninth page of the first 900 is gone",
        arguments: &["--copiers", "3", "--capacity", "8"],
        script: b"zone 0 4\nfill 0 0 0 1024\nthin 0 0 0 100 9\ncompact 0\ninfo 0\n",
        replies: b"ok\ndone=1024\ndone=100\nisolated=924 moved=924 back=0 stopped=met\nfree=1124 pages=924 moving=0 huge=0 whole=2\n",
        ..NOTHING
    },
];

/// Rounds that stop at a full journal, leave pages where they are, or are refused.
pub fn stopped_rounds() -> &'static [Case<'static>] {
    &STOPPED_ROUNDS
}

static STOPPED_ROUNDS: [Case<'static>; 6] = [
    Case {
        name: "a round moves nine of ten pages, for which the journal has places",
        arguments: &["--journal", "29"],
        script: b"zone 0 1\nfill 0 0 0 10\ncompact 0\n",
        replies: b"ok\ndone=10\nisolated=9 moved=9 back=0 stopped=journalfull\n",
        ..NOTHING
    },
    Case {
        name: "a round moves ten pages, and the journal has places for one more",
        arguments: &["--journal", "32"],
        script: b"zone 0 1\nfill 0 0 0 10\ncompact 0\n",
        replies: b"ok\ndone=10\nisolated=10 moved=10 back=0 stopped=met\n",
        ..NOTHING
    },
    Case {
        name: "a round stops where the journal is full",
        arguments: &["--journal", "5"],
        script: b"zone 0 1\nmap 0 0 0\nmap 0 0 1\nmap 0 0 2\ncompact 0\nload 0 0 1 0\ninfo 0\n",
        replies: b"ok\nok\nok\nok\nisolated=1 moved=1 back=0 stopped=journalfull\nrefused 2\nfree=509 pages=3 moving=0 huge=0 whole=0\n",
        ..NOTHING
    },
    Case {
        name: "rounds leave a marked pageblock alone",
        script: b"profile 2\nzone 0 3\nmapat 0 0 0 0\nmapat 0 0 1 512\nmark 0 2\nmark 0 2\ncompact 0\nlook 0 0 0\nunmark 0 2\nunmark 0 2\ncompact 0\nlook 0 0 1\ninfo 0\n",
        replies: b"ok\nok\nok\nok\nok\nrefused 17\nisolated=2 moved=2 back=0 stopped=met\nframe=1023 dirty=0 unmovable=0 pins=0 maps=1\nok\nrefused 18\nisolated=2 moved=2 back=0 stopped=met\nframe=1535 dirty=0 unmovable=0 pins=0 maps=1\nfree=1534 pages=2 moving=0 huge=0 whole=2 held=0\n",
        ..NOTHING
    },
    Case {
        name: "no round while one is open by hand, nor without its zone",
        script: b"compact 0\nzone 0 1\nmap 0 0 0\nscan 0\ncompact 0\ncompact 1\ncompact 4\nshut 0\ncompact 0\nlook 0 0 0\n",
        replies: b"refused 43\nok\nok\nserial=0\nrefused 45\nrefused 43\nrefused 1\nback=1\nisolated=1 moved=1 back=0 stopped=met\nframe=511 dirty=0 unmovable=0 pins=0 maps=1\n",
        ..NOTHING
    },
    Case {
        name: "a pinned page stays where it is, and is moved once its pin is off",
        arguments: &["--copiers", "3", "--capacity", "1"],
        script: b"zone 0 1\nmap 0 0 0\nstore 0 0 0 7 9\npin 0 0 0\ncompact 0\nunpin 0 0 0\ncompact 0\nload 0 0 0 7\nscan 0\nshut 0\n",
        replies: b"ok\nok\nok\nok\nisolated=0 moved=0 back=0 stopped=met\nok\nisolated=1 moved=1 back=0 stopped=met\nvalue=9\nmet\nback=0\n",
        ..NOTHING
    },
];

/// Pools of blocks.
pub fn pools() -> &'static [Case<'static>] {
    &POOLS
}

static POOLS: [Case<'static>; 8] = [
    Case {
        name: "a pool runs a round for its first block, and one in vain for its second",
        script: b"zone 0 2\nmapat 0 0 0 0\nmapat 0 0 1 512\npool 0 2\ngive 0 0\ninfo 0\n",
        replies: b"ok\nok\nok\ngot=1 rounds=2 stopped=noblock blocks=0\nok\nfree=1022 pages=2 moving=0 huge=0 whole=1\n",
        ..NOTHING
    },
    Case {
        name: "a pool takes the whole pageblock, and the next finds none",
        script: b"zone 0 1\npool 0 1\npool 0 1\ninfo 0\n",
        replies: b"ok\ngot=1 rounds=0 stopped=enough blocks=0\ngot=0 rounds=1 stopped=noblock blocks=-\nfree=0 pages=0 moving=0 huge=1 whole=0\n",
        ..NOTHING
    },
    Case {
        name: "a pool without a place in the journal",
        arguments: &["--journal", "1"],
        script: b"zone 0 1\npool 0 1\ngive 0 0\npool 0 1\n",
        replies: b"ok\ngot=1 rounds=0 stopped=enough blocks=0\nrefused 2\ngot=0 rounds=0 stopped=journalfull blocks=-\n",
        ..NOTHING
    },
    Case {
        name: "a pool of smaller blocks needs no round",
        script: b"profile 2\nzone 0 2\nmapat 0 0 0 0\nmapat 0 0 1 512\npool 0 2 8\ngive 0 768 8\ninfo 0\n",
        replies: b"ok\nok\nok\nok\ngot=2 rounds=0 stopped=enough frames=256,768\nok\nfree=766 pages=2 moving=0 huge=1 whole=0 held=256\n",
        ..NOTHING
    },
    Case {
        name: "a pool has enough blocks after a round",
        arguments: &["--copiers", "4"],
        script: b"zone 0 3\nmapat 0 0 0 0\nmapat 0 0 1 512\nstore 0 0 1 0 7\npool 0 2\nload 0 0 1 0\ninfo 0\n",
        replies: b"ok\nok\nok\nok\ngot=2 rounds=1 stopped=enough blocks=2,0\nvalue=7\nfree=510 pages=2 moving=0 huge=2 whole=0\n",
        ..NOTHING
    },
    Case {
        name: "a pool of eight pageblocks, and of eight blocks",
        script: b"profile 2\nzone 0 8\npool 0 8\npool 0 1\ngive 0 7\npool 0 8 6\n",
        replies: b"ok\nok\ngot=8 rounds=0 stopped=enough blocks=0,1,2,3,4,5,6,7\ngot=0 rounds=1 stopped=noblock blocks=-\nok\ngot=8 rounds=0 stopped=enough frames=3584,3648,3712,3776,3840,3904,3968,4032\n",
        ..NOTHING
    },
    Case {
        name: "no pool while a round is open by hand, nor without its zone",
        script: b"pool 0 1\nzone 0 1\nscan 0\npool 0 1\npool 1 1\npool 4 1\npool 0 0\npool 0 9\nshut 0\npool 0 1\n",
        replies: b"refused 43\nok\nmet\nrefused 45\nrefused 43\nrefused 1\nrefused 1\nrefused 1\nback=0\ngot=1 rounds=0 stopped=enough blocks=0\n",
        ..NOTHING
    },
    Case {
        name: "a pool of an order in profile 1",
        script: b"zone 0 1\npool 0 1 9\n",
        replies: b"ok\n",
        faults: b"compactd: fault 41 at line 2\n",
        status: 1,
        ..NOTHING
    },
];

/// Lines that are no command in profile 1.
pub static FAULTS: [&str; 24] = [
    "zone 0",
    "info 0 0",
    "info +1",
    "Info 1",
    "take 3",
    "pool 3",
    "fill 0 0 0",
    "thin 0 0 0 1",
    "store 0 1 2 3 4 5 6",
    "store 0 1 2 7 18446744073709551616",
    "load 0 1 2 000000000000000000007",
    "compact 3 1",
    "during 3 1",
    "end",
    "profile",
    "profile 1",
    "profile 02",
    "profile 2 2",
    "Profile 2",
    "huge 0 3",
    "give 0 0 3",
    "mark 0 0",
    "unmark 0 0",
    "pool 0 1 3",
];
