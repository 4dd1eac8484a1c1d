//! Lists: what list files and arrays permit, and the texts of errors.

use pkcheck::{Allow, AllowError, Where};
use pklist::{Pair, pairs};
use std::test::Fail;

const LIST: &str = "version = 1
[imports]
collections = [\"OrderedDict\", \"deque\", \"deque\"]
\"a.b\" = [\"c\"]
empty = []
";

#[test]
fn pairs_of_a_list(rt: HostRuntime) -> Result<(), Fail> {
    let allow = Allow::from_toml(rt.alloc(), LIST)?;
    for (module, name, wanted) in [
        ("collections", "OrderedDict", true),
        ("collections", "deque", true),
        ("a.b", "c", true),
        ("collections", "Counter", false),
        ("collections", "", false),
        ("collection", "deque", false),
        ("a", "b.c", false),
        ("empty", "c", false),
        ("", "", false),
    ] {
        assert_eq!(rt; allow.contains(module, name), wanted, "{module} {name}");
    }
    Ok(())
}

#[test]
fn pairs_of_an_array(rt: HostRuntime) -> Result<(), Fail> {
    let (first, second) = (pair(b"a", b"c"), pair(b"b", b"a"));
    for (module, name, wanted) in [(b"a", b"c", true), (b"b", b"a", true), (b"a", b"a", false)] {
        assert_eq!(rt; pairs::have(&[first, second], module, name), wanted);
        assert_eq!(rt; pairs::have(&[second, first], module, name), wanted);
        assert_eq!(rt; pairs::found(&[first, second], module, name), wanted);
    }
    Ok(())
}

fn pair<'a>(module_name: &'a [u8], name: &'a [u8]) -> Pair<'a> {
    Pair { module_name, name }
}

#[test]
fn the_texts_of_errors(rt: HostRuntime) -> Result<(), Fail> {
    for (error, wanted) in [
        (AllowError::Syntax, "the list is not TOML"),
        (
            AllowError::Shape(Where::Version),
            "the list has a wrong shape: version",
        ),
        (
            AllowError::Shape(Where::TopKey),
            "the list has a wrong shape: top key",
        ),
        (
            AllowError::Shape(Where::Imports),
            "the list has a wrong shape: imports",
        ),
        (
            AllowError::Shape(Where::Module),
            "the list has a wrong shape: module",
        ),
        (
            AllowError::Shape(Where::Name),
            "the list has a wrong shape: name",
        ),
        (
            AllowError::Shape(Where::Limits),
            "the list has a wrong shape: limits",
        ),
        (
            AllowError::Shape(Where::LimitKey),
            "the list has a wrong shape: limit key",
        ),
        (
            AllowError::Shape(Where::Limit),
            "the list has a wrong shape: limit",
        ),
        (AllowError::Version, "the list has an unknown version"),
        (AllowError::OutOfMemory, "out of memory"),
    ] {
        assert_eq!(rt; format!(in rt.alloc(); "{error}")?.as_str(), wanted);
    }
    Ok(())
}
