//! Which files a name on the command line means.

use crate::lint_files::fake::Fake;
use std::alloc::{AllocError, Global};
use std::io::ErrorKind;
use timefd_lint_files::{
    Excluded, NameGroup, Nearest, SoughtFiles, WalkError, WalkReason, expanded, first_upwards,
    folders_above, found_for, front_below, grouped,
};

/// Sources of Rust, and nothing excluded.
const RUST: SoughtFiles<'static> = SoughtFiles {
    endings: &[".rs"],
    excluded: Excluded {
        patterns: "",
        folder: b"",
        front: b"",
    },
};

/// Names on the command line, and the names of the files that they mean, each after a bar.
const EXPANDED: &[(&[&str], &str)] = &[
    // Folders and files.
    (
        &["src"],
        "|src/a/generated.rs|src/a/kept.rs|src/a.rs|src/z.rs",
    ),
    (
        &["src/"],
        "|src/a/generated.rs|src/a/kept.rs|src/a.rs|src/z.rs",
    ),
    (&["notes.txt"], "|notes.txt"),
    (&["-"], "|-"),
    (&[], ""),
    (
        &["b.txt", "src", "absent"],
        "|b.txt|src/a/generated.rs|src/a/kept.rs|src/a.rs|src/z.rs|absent",
    ),
    // Folders of repositories.
    (&["made"], "|made/b.rs|made/c.rs"),
    (&["young"], "|young/a.rs|young/b.rs|young/c.rs"),
    (&["linked"], "|linked/a.rs|linked/b.rs|linked/c.rs"),
];

/// The names, each after a bar.
fn shown(alloc: Global, names: &[String]) -> Result<String, AllocError> {
    let mut all = String::new(alloc);
    for name in names {
        all.push('|')?;
        all.push_str(name.as_str())?;
    }
    Ok(all)
}

#[test]
fn names_stand_for_files(rt: HostRuntime) {
    for &(names, all) in EXPANDED {
        let found = expanded(&Fake, rt.alloc(), RUST, names).expect(&rt, "names");
        let found = shown(rt.alloc(), &found).expect(&rt, "memory");
        assert_eq!(rt; found.as_str(), all);
    }
}

/// What a folder around the working directory excludes: the path of the working directory from there, the
/// patterns, names, and the files that these mean.
const EXCLUDED: &[(&str, &str, &[&str], &str)] = &[
    ("top/", "/top/src/a\n", &["src"], "|src/a.rs|src/z.rs"),
    (
        "top/",
        "/src/a\n",
        &["src"],
        "|src/a/generated.rs|src/a/kept.rs|src/a.rs|src/z.rs",
    ),
    ("top/", "top/\n", &["b.txt", "/b.txt"], "|/b.txt"),
    (
        "top/inner/",
        "/top/b.txt\n",
        &["b.txt", "../b.txt", "./../b.txt", "../../b.txt"],
        "|b.txt|../../b.txt",
    ),
    ("", "b.txt\n", &["../b.txt", "c.txt", "./c/b.txt"], "|c.txt"),
];

#[test]
fn folders_around_exclude_files(rt: HostRuntime) {
    for &(front, patterns, names, all) in EXCLUDED {
        let sought = SoughtFiles {
            endings: &[".rs"],
            excluded: Excluded {
                patterns,
                folder: b"",
                front: front.as_bytes(),
            },
        };
        let found = expanded(&Fake, rt.alloc(), sought, names).expect(&rt, "names");
        let found = shown(rt.alloc(), &found).expect(&rt, "memory");
        assert_eq!(rt; found.as_str(), all);
    }
}

/// What a folder of this path excludes, by patterns, of these names, and the files that these mean.
const EXCLUDED_BELOW: &[(&str, &str, &[&str], &str)] = &[
    ("src/", "/a\n", &["src"], "|src/a.rs|src/z.rs"),
    (
        "src/",
        "/src/a\n",
        &["src/"],
        "|src/a/generated.rs|src/a/kept.rs|src/a.rs|src/z.rs",
    ),
    (
        "src/",
        "/a.rs\n",
        &["src/a.rs", "./src/a.rs", "././src/a.rs", "src/b/a.rs"],
        "|src/b/a.rs",
    ),
    (
        "/p/",
        "/b.txt\n",
        &["/p/b.txt", "/p/c/b.txt"],
        "|/p/c/b.txt",
    ),
    (
        "../",
        "/b.txt\n/top/c.txt\n",
        &["../b.txt", "./../b.txt", "b.txt", "c.txt"],
        "|b.txt",
    ),
];

#[test]
fn named_folders_exclude_files(rt: HostRuntime) {
    for &(folder, patterns, names, all) in EXCLUDED_BELOW {
        let sought = SoughtFiles {
            endings: &[".rs"],
            excluded: Excluded {
                patterns,
                folder: folder.as_bytes(),
                front: b"top/",
            },
        };
        let found = expanded(&Fake, rt.alloc(), sought, names).expect(&rt, "names");
        let found = shown(rt.alloc(), &found).expect(&rt, "memory");
        assert_eq!(rt; found.as_str(), all);
    }
}

/// A name, how many folders are around its folder, and where `exclude` is found upwards from there.
const FOUND: &[(&str, &str)] = &[
    ("made/.git/info/a.rs", "made/.git/info/ 5"),
    ("made/.git/info/deep/a.rs", "made/.git/info/ 5"),
    ("./made/.git/info/deep/er/", "made/.git/info/ 5"),
    ("/made/.git/info/a.rs", "|"),
    ("made/a.rs", "|"),
    ("a.rs", "|"),
    ("-", "|"),
];

fn shown_found(alloc: Global, found: &Option<Nearest>) -> Result<String, AllocError> {
    match found {
        Some(found) => format!(in alloc; "{} {}", found.folder, found.above),
        None => String::from_str(alloc, "|"),
    }
}

#[test]
fn a_file_is_found_for_a_name(rt: HostRuntime) {
    let alloc = rt.alloc();
    for &(name, wanted) in FOUND {
        let found = found_for(&Fake, alloc, "exclude", b"home/u/", name).expect(&rt, "found");
        let found = shown_found(alloc, &found).expect(&rt, "memory");
        assert_eq!(rt; found.as_str(), wanted);
    }
}

/// How many names each group has, and what is found for it, each after a space.
fn shown_groups(alloc: Global, groups: &[NameGroup<'_>]) -> Result<String, AllocError> {
    let mut all = String::new(alloc);
    for group in groups {
        let found = shown_found(alloc, &group.found)?;
        let one = format!(in alloc; " {} {found}", group.names.len())?;
        all.push_str(&one)?;
    }
    Ok(all)
}

#[test]
fn neighbours_are_in_one_group(rt: HostRuntime) {
    let alloc = rt.alloc();
    let names = &[
        "made/.git/info/a.rs",
        "made/.git/info/deep/b.rs",
        "x.rs",
        "y.rs",
        "made/.git/info/c.rs",
    ];
    let groups = grouped(&Fake, alloc, "exclude", b"home/u/", names).expect(&rt, "groups");
    let groups = shown_groups(alloc, &groups).expect(&rt, "memory");
    assert_eq!(rt;
        groups.as_str(),
        " 2 made/.git/info/ 5 2 | 1 made/.git/info/ 5"
    );
    let groups = grouped(&Fake, alloc, "exclude", b"home/u/", &[]).expect(&rt, "groups");
    let groups = shown_groups(alloc, &groups).expect(&rt, "memory");
    assert_eq!(rt; groups.as_str(), " 0 |");
}

/// Where `.gitignore` is found from a folder upwards, and how many folders are around it there; a bar if it
/// isn't found.
fn upwards(alloc: Global, folder: &str, above: usize) -> Result<String, AllocError> {
    match first_upwards(&Fake, alloc, ".gitignore", folder, above) {
        Ok(Some(found)) => format!(in alloc; "{} {}", found.folder, found.above),
        Ok(None) | Err(_) => String::from_str(alloc, "|"),
    }
}

#[test]
fn a_file_is_sought_upwards(rt: HostRuntime) {
    let alloc = rt.alloc();
    assert_eq!(rt;
        upwards(alloc, "src/", 3).expect(&rt, "memory").as_str(),
        "src/ 3"
    );
    assert_eq!(rt;
        upwards(alloc, "src", 3).expect(&rt, "memory").as_str(),
        "|"
    );
    assert_eq!(rt; folders_above(""), 0);
    assert_eq!(rt; folders_above("home/u/p"), 3);
    let front = front_below(alloc, "home/u/p", 1).expect(&rt, "memory");
    assert!(rt; front.as_slice() == b"u/p/".as_slice());
    let front = front_below(alloc, "home/u/p", 3).expect(&rt, "memory");
    assert!(rt; front.is_empty());
}

/// Whether a name fails, for this reason, and which name is reported.
fn fails(alloc: Global, name: &str, path: &str, reason: WalkReason) -> bool {
    match expanded(&Fake, alloc, RUST, &[name]) {
        Err(
            WalkError::Failed {
                path: reported,
                reason: why,
            },
        ) => reported.as_str() == path && why == reason,
        Err(WalkError::Memory) | Ok(_) => false,
    }
}

/// The length in bytes of the name of the folder that is nested too deep below this one.
fn length_too_deep(alloc: Global, name: &str) -> Option<usize> {
    match expanded(&Fake, alloc, RUST, &[name]) {
        Err(WalkError::Failed { path, reason }) => {
            if reason == WalkReason::TooDeep {
                Some(path.len())
            } else {
                None
            }
        }
        Err(WalkError::Memory) | Ok(_) => None,
    }
}

#[test]
fn folders_that_fail_are_reported(rt: HostRuntime) {
    let denied = WalkReason::Unread(ErrorKind::PermissionDenied);
    assert!(rt; fails(rt.alloc(), "closed", "closed/", denied));
    assert_eq!(rt; length_too_deep(rt.alloc(), "deep"), Some(5 * 256));
}
