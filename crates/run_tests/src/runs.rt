//! The program, run on its words over files that the test makes.

use census_run::run;
use std::alloc::Global;
use std::process::Abort;
use std::test::Fail;
use std::{env, fs};

/// Words, the status with which they end, their output, and their errors. A text that ends with two dots is the front of one.
#[derive(Clone, Copy)]
struct Case<'a> {
    words: &'a [&'a str],
    status: u8,
    output: &'a str,
    errors: &'a str,
}

/// How the program ended: its status, its output and its errors.
#[derive(Drop)]
struct End {
    status: u8,
    output: Vec<u8>,
    errors: Vec<u8>,
}

impl End {
    // The end of the words.
    fn of(rt: &HostRuntime, words: &[&str]) -> End {
        let mut input = &b"zz\n4f47443100000000\n"[..];
        let mut output = Vec::new(rt.alloc());
        let mut errors = Vec::new(rt.alloc());
        let status = run(rt, words, &mut input, &mut output, &mut errors);
        End {
            status,
            output,
            errors,
        }
    }

    // It is that of the case.
    fn is_right(&self, rt: &impl Abort, case: Case) {
        let Case {
            words,
            status,
            output,
            errors,
        } = case;
        is_like(rt, &self.errors, errors, words);
        assert_eq!(rt; self.status, status, "the status of {words:?}");
        is_like(rt, &self.output, output, words);
    }
}

// The text of the words is as it should be.
fn is_like(rt: &impl Abort, text: &[u8], wanted: &str, words: &[&str]) {
    let text = str::from_utf8(text).ok().expect(rt, "a text");
    match wanted.strip_suffix("..") {
        Some(front) => assert!(rt; text.starts_with(front), "{words:?}: {text}"),
        None => assert_eq!(rt; text, wanted, "{words:?}"),
    }
}

// The name of a folder for files of a test.
fn folder_name(rt: &HostRuntime) -> Result<String, Fail> {
    let temp = env::temp_dir(rt)?;
    let place = temp.as_path().to_str().ok_or("no text")?;
    Ok(format!(in rt.alloc(); "{place}/census-does_commands_over_files")?)
}

// Commands on a state, of which one reads a file of JSON, and searches that are saved, and how they end. The words STATE, JSON
// and SEARCH stand for the files, and NOWHERE for one in a folder that is not there.
const ON_FILES: &[Case<'static>] = &[
    Case {
        words: &["init", "STATE", "7"],
        status: 0,
        output: "author 7\n",
        errors: "",
    },
    Case {
        words: &["init", "STATE", "7"],
        status: 3,
        output: "",
        errors: "census: Exists\n",
    },
    Case {
        words: &["sync", "STATE", "nowhere"],
        status: 3,
        output: "",
        errors: "census: Net\n",
    },
    Case {
        words: &["hub", "STATE", "nowhere"],
        status: 3,
        output: "",
        errors: "census: Net\n  nowhere has no port: ..",
    },
    Case {
        words: &["--explain", "sync", "STATE", "nowhere"],
        status: 3,
        output: "",
        errors: "census: Net\n  nowhere has no port: ..",
    },
    Case {
        words: &["hub", "STATE", "nowhere", "--longest", "0"],
        status: 2,
        output: "",
        errors: "census: Number\n  --longest must be 1 to 4294967295, and is 0; ..",
    },
    Case {
        words: &["hub", "STATE", "127.0.0.1:0", "--peers", "0"],
        status: 0,
        output: "listening on 127.0.0.1:..",
        errors: "",
    },
    Case {
        words: &["unnote", "STATE", "dawson"],
        status: 1,
        output: "",
        errors: "census: Removal NoNote\n",
    },
    Case {
        words: &["delta", "STATE", "STATE"],
        status: 3,
        output: "",
        errors: "census: Same\n",
    },
    Case {
        words: &["import", "STATE", "JSON"],
        status: 0,
        output: "issued 7.1\n",
        errors: "",
    },
    Case {
        words: &["show", "STATE"],
        status: 0,
        output: DAWSON,
        errors: "",
    },
    Case {
        words: &["delta", "STATE", "-"],
        status: 0,
        output: "OGD1..",
        errors: "",
    },
    Case {
        words: &["find", "STATE", "0.07"],
        status: 0,
        output: "0.07 no period in 7 values\n",
        errors: "",
    },
    Case {
        words: &["--explain", "find", "STATE", "0.07", "0.87"],
        status: 1,
        output: "",
        errors: "census: Code Digit\n  0.87: the digit 8 is none of 0 to 7\n  ..",
    },
    Case {
        words: &["compute", "STATE", "0.07", "2000", "--explain"],
        status: 1,
        output: "",
        errors: "census: Compute TooMany\n  COUNT must be 1 to 1024, and is 2000\n  census extend..",
    },
    Case {
        words: &["merge", "STATE", "-", "--explain"],
        status: 1,
        output: "",
        errors: "census: Merge Version\n  standard input does not begin as a delta does\n  ..",
    },
    Case {
        words: &["digest", "STATE"],
        status: 0,
        output: DAWSON_DIGEST,
        errors: "",
    },
    Case {
        words: &["digest", "JSON"],
        status: 1,
        output: "",
        errors: "census: Merge Version\n",
    },
    Case {
        words: &["init", "STATE", "--draw"],
        status: 3,
        output: "",
        errors: "census: Exists\n",
    },
    Case {
        words: &["init", "STATE", "8", "--draw"],
        status: 2,
        output: "",
        errors: "error: ..",
    },
    Case {
        words: &["renumber", "STATE", "7"],
        status: 1,
        output: "",
        errors: "census: Held\n",
    },
    Case {
        words: &["renumber", "STATE", "8"],
        status: 0,
        output: "author 7 renumbered 8\n",
        errors: "",
    },
    Case {
        words: &["renumber", "STATE"],
        status: 0,
        output: "author 8 renumbered ..",
        errors: "",
    },
    Case {
        words: &["digest", "STATE"],
        status: 0,
        output: DAWSON_DIGEST,
        errors: "",
    },
    Case {
        words: &["note", "--quiet", "STATE", "dawson", "x"],
        status: 0,
        output: "",
        errors: "",
    },
    Case {
        words: &["renumber", "STATE", "9"],
        status: 0,
        output: "author ..",
        errors: "",
    },
    Case {
        words: &["period", "STATE", "0.07", "1", "1"],
        status: 0,
        output: "issued 9.1\n",
        errors: "",
    },
    Case {
        words: &["--explain", "period", "STATE", "0.07", "1", "1"],
        status: 0,
        output: "issued 9.2\n",
        errors: "9.2: refuted at 1, which has the value 0, and 2 the value 1\n",
    },
    Case {
        words: &["--explain", "import", "STATE", "JSON"],
        status: 0,
        output: "issued 9.3\n",
        errors: "9.3: proved\n",
    },
    Case {
        words: &["--explain", "import", "--quiet", "STATE", "JSON"],
        status: 0,
        output: "",
        errors: "",
    },
    Case {
        words: &["search", "70000", "0.16", "--window", "--save", "SEARCH"],
        status: 0,
        output: "0.16 no period seen in 70000 values\n",
        errors: "",
    },
    Case {
        words: &["search", "70000", "0.16", "--window", "--save", "SEARCH"],
        status: 0,
        output: "0.16 no period seen in 70000 values from a saved search\n",
        errors: "",
    },
    Case {
        words: &[
            "--explain",
            "search",
            "60000",
            "0.16",
            "--window",
            "--json",
            "--save",
            "SEARCH",
        ],
        status: 0,
        output: "{\"code\":\"0.16\",\"period\":null,\"values\":70000,\"unseen\":true,\"saved\":true}\n",
        errors: "the search in ..",
    },
    Case {
        words: &["search", "70000", "0.56", "--window", "--save", "SEARCH"],
        status: 1,
        output: "",
        errors: "census: Saved Game\n",
    },
    Case {
        words: &["search", "70000", "0.16", "--window", "--save", "STATE"],
        status: 1,
        output: "",
        errors: "census: Saved Version\n",
    },
    Case {
        words: &["search", "1000000", "0.16", "--window", "--save", "SEARCH"],
        status: 0,
        output: "0.16 period 149459 from 105351 needs 509622 values 411603 from a saved search\n",
        errors: "",
    },
    Case {
        words: &["search", "1", "0.16", "--window", "--save", "SEARCH"],
        status: 0,
        output: "0.16 period 149459 from 105351 needs 509622 values 411603 from a saved search\n",
        errors: "",
    },
    Case {
        words: &["search", "70000", "0.16", "--window", "--save", "NOWHERE"],
        status: 3,
        output: "",
        errors: "census: File\n",
    },
];

// The files for which words stand.
#[derive(Drop)]
struct Names {
    state: String,
    json: String,
    search: String,
    nowhere: String,
}

impl Names {
    // Those of files in a folder.
    fn of(alloc: Global, folder: &str) -> Result<Names, Fail> {
        Ok(Names {
            state: format!(in alloc; "{folder}/state")?,
            json: format!(in alloc; "{folder}/block.json")?,
            search: format!(in alloc; "{folder}/0.16.search")?,
            nowhere: format!(in alloc; "{folder}/nowhere/0.16.search")?,
        })
    }

    // The words over these files.
    fn words<'a>(&'a self, alloc: Global, words: &[&'a str]) -> Result<Vec<&'a str>, Fail> {
        let mut all = Vec::new(alloc);
        for &word in words {
            all.push(match word {
                "STATE" => self.state.as_str(),
                "JSON" => self.json.as_str(),
                "SEARCH" => self.search.as_str(),
                "NOWHERE" => self.nowhere.as_str(),
                other => other,
            })?;
        }
        Ok(all)
    }
}

#[test]
fn does_commands_over_files(rt: HostRuntime) -> Result<(), Fail> {
    let folder = folder_name(&rt)?;
    let _ = fs::remove_dir_all(&rt, folder.as_str());
    fs::create_dir(&rt, folder.as_str())?;
    let names = Names::of(rt.alloc(), folder.as_str())?;
    fs::write(&rt, names.json.as_str(), BLOCK)?;
    for &case in ON_FILES {
        let words = names.words(rt.alloc(), case.words)?;
        End::of(&rt, &words).is_right(&rt, case);
    }
    fs::remove_dir_all(&rt, folder.as_str())?;
    Ok(())
}

const BLOCK: &str = "{\"code\":\"0.07\",\"start\":0,\"values\":[0,0,1,1,2,0,3]}";

const DAWSON: &str = "\
census 2
game 0.07 known 7
values 0 0 0 1 1 2 0 3
block 7.1 at 0 count 7 proved
author 7 through 1 last 1
end
";

// What `sha256sum` prints of the delta of that block, before the name of the file.
const DAWSON_DIGEST: &str = "e7632fc4dbf044be5e28784d37ebbd1ce31d56f16a2e3bcab00e5ca68e1e99b7  ..";

const CASES: &[Case<'static>] = &[
    Case {
        words: &["fold"],
        status: 0,
        output: "census 2\nend\n",
        errors: "refused 1\n",
    },
    Case {
        words: &["init", "none", "x"],
        status: 2,
        output: "",
        errors: "census: Number\n",
    },
    Case {
        words: &["bogus", "fold"],
        status: 2,
        output: "",
        errors: "error: ..",
    },
    Case {
        words: &["fold", "more"],
        status: 2,
        output: "",
        errors: "error: ..",
    },
    Case {
        words: &["show", "--bogus"],
        status: 2,
        output: "",
        errors: "error: ..",
    },
    Case {
        words: &["--help"],
        status: 0,
        output: "One table of nim-sequences..",
        errors: "",
    },
    Case {
        words: &["--version"],
        status: 0,
        output: "census 2.14.0\n",
        errors: "",
    },
    Case {
        words: &["explain", "Bfile", "Form", "3"],
        status: 0,
        output: "Bfile Form, status 1\n  the b-file has, at this line,..",
        errors: "",
    },
    Case {
        words: &["explain", "Bfi"],
        status: 2,
        output: "",
        errors: "census: Words\n",
    },
    Case {
        words: &["completion", "bash"],
        status: 0,
        output: "# Completions of census..",
        errors: "",
    },
    Case {
        words: &["completion", "sh"],
        status: 2,
        output: "",
        errors: "census: Words\n",
    },
];

#[test]
fn folds_and_refuses_lines(rt: HostRuntime) {
    for &case in CASES {
        End::of(&rt, case.words).is_right(&rt, case);
    }
}

// Searches: the periods of the literature, by as many values as prove them and by one fewer; the values of heaps, of any
// size, and those of a b-file; the same in windows, which are marked at 65,536 heaps, and where they are twice as far, so
// that the one at 262,144 comes again after one period of 0.16; and each refusal.
const SEARCHES: &[Case<'static>] = &[
    Case {
        words: &["search", "168", "0.77"],
        status: 0,
        output: "0.77 period 12 from 71 needs 168 values 168\n",
        errors: "",
    },
    Case {
        words: &["search", "509622", "0.16"],
        status: 0,
        output: "0.16 period 149459 from 105351 needs 509622 values 509622\n",
        errors: "",
    },
    Case {
        words: &["search", "167", "0.77", "0.6"],
        status: 0,
        output: "0.77 no period in 167 values\n0.6 no period in 167 values\n",
        errors: "",
    },
    Case {
        words: &[
            "search",
            "168",
            "0.77",
            "--at",
            "1000000000000",
            "--at",
            "11",
        ],
        status: 0,
        output: "0.77 period 12 from 71 needs 168 values 168\n0.77 at 1000000000000 value 1\n0.77 at 11 value 6\n",
        errors: "",
    },
    Case {
        words: &["search", "12", "0.77", "--at", "11", "--at", "12"],
        status: 0,
        output: "0.77 no period in 12 values\n0.77 at 11 value 6\n0.77 at 12 not known\n",
        errors: "",
    },
    Case {
        words: &["search", "168", "0.77", "--json"],
        status: 0,
        output: "{\"code\":\"0.77\",\"period\":12,\"from\":71,\"needs\":168,\"values\":168}\n",
        errors: "",
    },
    Case {
        words: &["search", "12", "0.77", "--json", "--at", "11", "--at", "12"],
        status: 0,
        output: "{\"code\":\"0.77\",\"period\":null,\"values\":12,\"at\":[{\"heap\":11,\"value\":6},{\"heap\":12,\"value\":null}]}\n",
        errors: "",
    },
    Case {
        words: &["search", "--bfile", "5", "0.77"],
        status: 0,
        output: "0 0\n1 1\n2 2\n3 3\n4 1\n",
        errors: "",
    },
    Case {
        words: &["search", "--bfile", "0", "0.77", "0.6"],
        status: 2,
        output: "",
        errors: "census: Words\n",
    },
    Case {
        words: &["search", "--bfile", "5", "0.77", "--at", "5"],
        status: 2,
        output: "",
        errors: "census: Words\n",
    },
    Case {
        words: &["search", "--bfile", "5", "0.77", "--json"],
        status: 2,
        output: "",
        errors: "census: Words\n",
    },
    Case {
        words: &["search", "1000", "0.77", "--window"],
        status: 0,
        output: "0.77 period 12 from 71 needs 168 values 1000\n",
        errors: "",
    },
    Case {
        words: &["search", "1000000", "0.16", "--window"],
        status: 0,
        output: "0.16 period 149459 from 105351 needs 509622 values 411603\n",
        errors: "",
    },
    Case {
        words: &["search", "167", "0.77", "--window", "--json"],
        status: 0,
        output: "{\"code\":\"0.77\",\"period\":null,\"values\":167}\n",
        errors: "",
    },
    Case {
        words: &["search", "70000", "0.16", "--window", "--json"],
        status: 0,
        output: "{\"code\":\"0.16\",\"period\":null,\"values\":70000,\"unseen\":true}\n",
        errors: "",
    },
    Case {
        words: &["search", "70000", "0.16", "--window"],
        status: 0,
        output: "0.16 no period seen in 70000 values\n",
        errors: "",
    },
    Case {
        words: &["search", "1000", "0.77", "--window", "--at", "5"],
        status: 2,
        output: "",
        errors: "census: Words\n",
    },
    Case {
        words: &["search", "--bfile", "5", "0.77", "--window"],
        status: 2,
        output: "",
        errors: "census: Words\n",
    },
    Case {
        words: &["search", "1000", "0.77", "--save", "FILE"],
        status: 2,
        output: "",
        errors: "census: Words\n",
    },
    Case {
        words: &[
            "search", "1000", "0.77", "0.6", "--window", "--save", "FILE",
        ],
        status: 2,
        output: "",
        errors: "census: Words\n",
    },
    Case {
        words: &["search", "--bfile", "5", "0.77", "--save", "FILE"],
        status: 2,
        output: "",
        errors: "census: Words\n",
    },
    Case {
        words: &["search", "1152921504606846977", "0.77", "--window"],
        status: 2,
        output: "",
        errors: "census: Number\n",
    },
    Case {
        words: &["search", "0", "0.8"],
        status: 2,
        output: "",
        errors: "census: Number\n",
    },
    Case {
        words: &["search", "4294967297", "0.6"],
        status: 2,
        output: "",
        errors: "census: Number\n",
    },
    Case {
        words: &["search", "x", "0.6"],
        status: 2,
        output: "",
        errors: "census: Number\n",
    },
    Case {
        words: &["search", "1000", "0.77", "5.7", "0.8"],
        status: 1,
        output: "",
        errors: "census: Code Head\n",
    },
    Case {
        words: &["search", "9", "0.8", "--at", "18446744073709551616"],
        status: 2,
        output: "",
        errors: "census: Number\n",
    },
    Case {
        words: &["search", "1000"],
        status: 2,
        output: "",
        errors: "error: ..",
    },
];

#[test]
fn searches_name_periods(rt: HostRuntime) {
    for &case in SEARCHES {
        End::of(&rt, case.words).is_right(&rt, case);
    }
}
