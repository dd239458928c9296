use crate::{Found, class_name, find};
use path_name::{Path, Text};
use std::alloc::Global;
use std::process::Abort;
use std::test::Fail;
use table_scan::{TableTexts, read};
use tree_dev::{Did, Entry, MemoryTree};

/// Which folders PSR-4 prefixes have.
const PSR4: &[u8] =
    b"<?php $vendorDir=dirname(__DIR__);$baseDir=dirname($vendorDir);return array('A\\\\B\\\\'=>array($baseDir.'/y'),'A\\\\'=>array($baseDir.'/x',$baseDir.'/z'),''=>array($baseDir.'/all'));";

/// Which folders PSR-0 prefixes have.
const PSR0: &[u8] =
    b"<?php $vendorDir=dirname(__DIR__);$baseDir=dirname($vendorDir);return array('A'=>array($baseDir.'/old'),'A_'=>array($baseDir.'/older'));";

/// Which classes are mapped.
const CLASS_MAP: &[u8] =
    b"<?php $vendorDir=dirname(__DIR__);$baseDir=dirname($vendorDir);return array('A\\\\Mapped'=>$baseDir.'/gone.php');";

const FILES: [&[u8]; 8] = [
    b"y/C.php",
    b"x/B/C.php",
    b"x/B/D.php",
    b"z/E.php",
    b"all/A/B/F.php",
    b"old/A/G/H.php",
    b"older/A/G/H.php",
    b"x/Mapped.php",
];

/// Each class with the file that it opens, where there is one.
const CLASSES: [(&[u8], Option<&[u8]>); 10] = [
    (b"A\\B\\C", Some(b"y/C.php")),
    (b"\\A\\B\\D", Some(b"x/B/D.php")),
    (b"A\\E", Some(b"z/E.php")),
    (b"A\\B\\F", Some(b"all/A/B/F.php")),
    (b"A_G_H", Some(b"old/A/G/H.php")),
    (b"A\\Mapped", Some(b"gone.php")),
    (b"A\\mapped", None),
    (b"A\\B", None),
    (b"B\\C", None),
    (b"A\\G_H", Some(b"old/A/G/H.php")),
];

fn texts(alloc: Global, state: Option<Text>) -> Result<TableTexts, Fail> {
    Ok(TableTexts {
        psr4: Some(Text::of(Vec::from_slice(alloc, PSR4)?)),
        psr0: Some(Text::of(Vec::from_slice(alloc, PSR0)?)),
        class_map: Some(Text::of(Vec::from_slice(alloc, CLASS_MAP)?)),
        files: None,
        state,
    })
}

fn tree(rt: &impl Abort, alloc: Global) -> Result<MemoryTree, Fail> {
    let mut tree = MemoryTree::new(alloc)?;
    for place in &FILES {
        let file = Entry::File(Text::of(Vec::new(alloc)));
        assert_eq!(rt;
            tree.put(alloc, &Path::read(alloc, place)?, file)?,
            Did::Done
        );
    }
    Ok(tree)
}

/// Whether a class opens this file.
fn opens(
    alloc: Global,
    texts: &TableTexts,
    tree: &mut MemoryTree,
    class: &[u8],
    file: Option<&[u8]>,
) -> Result<bool, Fail> {
    let name = class_name(alloc, class)?;
    let tables = read(alloc, texts, &Path::root(alloc))?;
    match find(alloc, &tables, tree, &name)? {
        Found::File(path) => Ok(file == Some(path.text())),
        Found::Nothing => Ok(file.is_none()),
    }
}

#[test]
fn classes(rt: HostRuntime) -> Result<(), Fail> {
    let texts = texts(rt.alloc(), None)?;
    let mut tree = tree(&rt, rt.alloc())?;
    for (class, file) in &CLASSES {
        assert!(rt; opens(rt.alloc(), &texts, &mut tree, class, *file)?);
    }
    Ok(())
}

#[test]
fn mapped_classes_alone(rt: HostRuntime) -> Result<(), Fail> {
    let state = b"<?php return array('mode'=>'authoritative','generation'=>1);";
    let texts = texts(
        rt.alloc(),
        Some(Text::of(Vec::from_slice(rt.alloc(), state)?)),
    )?;
    let mut tree = tree(&rt, rt.alloc())?;
    assert!(rt;
        opens(
            rt.alloc(),
            &texts,
            &mut tree,
            b"A\\Mapped",
            Some(b"gone.php")
        )?
    );
    assert!(rt; opens(rt.alloc(), &texts, &mut tree, b"A\\B\\C", None)?);
    Ok(())
}
