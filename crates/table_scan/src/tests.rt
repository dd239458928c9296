use crate::{Mode, TableFault, TableFile, TableTexts, Tables, read};
use path_name::{Path, Text, push_number};
use std::alloc::Global;
use std::process::Abort;
use std::test::Fail;

/// A text of a table file, and its tables as lines; or the place of its fault.
struct Row {
    file: TableFile,
    text: &'static [u8],
    shown: Option<&'static [u8]>,
    at: u64,
}

/// A text of a table file, and where its tokens of several bytes begin and end.
struct Cut {
    file: TableFile,
    text: &'static [u8],
    tokens: &'static [(usize, usize)],
}

static READ: [Row; 17] = [
    Row {
        file: TableFile::Psr4,
        text: b"<?php $vendorDir=dirname(__DIR__);$baseDir=dirname($vendorDir);return array();",
        shown: Some(b""),
        at: 0,
    },
    Row {
        file: TableFile::Psr4,
        text: b"<?php\n\n// a\n# b\r/* c */ $vendorDir /**/ = dirname ( __DIR__ ) ; $baseDir = dirname ( $vendorDir ) ; return array ( 'A\\\\' => array ( $baseDir . '/x' , ) , ) ;\n// end",
        shown: Some(b"A\\>app/x\n"),
        at: 0,
    },
    Row {
        file: TableFile::Psr4,
        text: b"<?php $vendorDir = dirname(dirname(__FILE__));\n$baseDir = dirname($vendorDir);return array('App\\\\' => array($baseDir.'/src',$vendorDir.'/a'));",
        shown: Some(b"App\\>app/src,app/vendor/a\n"),
        at: 0,
    },
    Row {
        file: TableFile::Psr4,
        text: b"<?php $vendorDir=dirname(__DIR__);$baseDir=dirname($vendorDir);return array(''=>array($baseDir.'/'));",
        shown: Some(b">app\n"),
        at: 0,
    },
    Row {
        file: TableFile::Psr4,
        text: b"<?php $vendorDir=dirname(__DIR__);$baseDir=dirname($vendorDir);return array('A\\\\'=>array());",
        shown: Some(b"A\\\n"),
        at: 0,
    },
    Row {
        file: TableFile::Psr4,
        text: b"<?php $vendorDir=dirname(__DIR__);$baseDir=dirname($vendorDir);return array('A\\\\'=>array($baseDir.'/../b'),'B\\\\'=>array($vendorDir.'/../../c'));",
        shown: Some(b"A\\>b\nB\\>c\n"),
        at: 0,
    },
    Row {
        file: TableFile::Psr4,
        text: b"<?php $vendorDir=dirname(__DIR__);$baseDir=dirname($vendorDir);return array('A\\\\'=>array($baseDir.'/./x//y/'));",
        shown: Some(b"A\\>app/x/y\n"),
        at: 0,
    },
    Row {
        file: TableFile::Psr4,
        text: b"<?php $vendorDir=dirname(__DIR__);$baseDir=dirname($vendorDir);return array('A\\\\'=>array($baseDir.'/1'),'B\\\\'=>array($baseDir.'/2'),'A\\\\'=>array($baseDir.'/3'));",
        shown: Some(b"A\\>app/3\nB\\>app/2\n"),
        at: 0,
    },
    Row {
        file: TableFile::Psr4,
        text: b"<?php $vendorDir=dirname(__DIR__);$baseDir=dirname($vendorDir);return array('B\\\\'=>array($baseDir.'/1'),'C\\\\'=>array($baseDir.'/2'),'A\\\\'=>array($baseDir.'/3'));",
        shown: Some(b"B\\>app/1\nC\\>app/2\nA\\>app/3\n"),
        at: 0,
    },
    Row {
        file: TableFile::Psr4,
        text: b"<?php $vendorDir=dirname(__DIR__);$baseDir=dirname($vendorDir);return array('B\\\\'=>array($baseDir.'/1'),'C\\\\'=>array($baseDir.'/2'),'A\\\\'=>array($baseDir.'/3'),'C\\\\'=>array($baseDir.'/4'));",
        shown: Some(b"B\\>app/1\nC\\>app/4\nA\\>app/3\n"),
        at: 0,
    },
    Row {
        file: TableFile::Psr4,
        text: b"<?php $vendorDir=dirname(__DIR__);$baseDir=dirname($vendorDir);return array('A\\'x\\n\\\\'=>array($baseDir.'/it\\'s'));",
        shown: Some(b"A'x\\n\\>app/it's\n"),
        at: 0,
    },
    Row {
        file: TableFile::Psr0,
        text: b"<?php $vendorDir=dirname(__DIR__);$baseDir=dirname($vendorDir);return array('Foo_'=>array($baseDir.'/lib'),'A'=>array($baseDir.'/a'));",
        shown: Some(b"Foo_>app/lib\nA>app/a\n"),
        at: 0,
    },
    Row {
        file: TableFile::ClassMap,
        text: b"<?php $vendorDir=dirname(__DIR__);$baseDir=dirname($vendorDir);return array('A\\\\B'=>$baseDir.'/B.php','C'=>$vendorDir.'/c/C.php',);",
        shown: Some(b"A\\B>app/B.php\nC>app/vendor/c/C.php\n"),
        at: 0,
    },
    Row {
        file: TableFile::Files,
        text: b"<?php $vendorDir=dirname(__DIR__);$baseDir=dirname($vendorDir);return array('id2'=>$baseDir.'/b.php','id1'=>$vendorDir.'/a.php','id2'=>$baseDir.'/c.php');",
        shown: Some(b"id2>app/c.php\nid1>app/vendor/a.php\n"),
        at: 0,
    },
    Row {
        file: TableFile::State,
        text: b"<?php return array('mode'=>'plain','generation'=>1);",
        shown: Some(b"plain 1\n"),
        at: 0,
    },
    Row {
        file: TableFile::State,
        text: b"<?php\nreturn array('mode' => 'optimised', 'generation' => 18446744073709551615,);\n",
        shown: Some(b"optimised 18446744073709551615\n"),
        at: 0,
    },
    Row {
        file: TableFile::State,
        text: b"<?php return array('mode'=>'authoritative','generation'=>007);",
        shown: Some(b"authoritative 7\n"),
        at: 0,
    },
];

static REFUSED: [Row; 41] = [
    Row {
        file: TableFile::Psr4,
        text: b"",
        shown: None,
        at: 0,
    },
    Row {
        file: TableFile::Psr4,
        text: b" \n",
        shown: None,
        at: 2,
    },
    Row {
        file: TableFile::Psr4,
        text: b"<?ph",
        shown: None,
        at: 0,
    },
    Row {
        file: TableFile::Psr4,
        text: b"<?php",
        shown: None,
        at: 0,
    },
    Row {
        file: TableFile::Psr4,
        text: b" <?php return",
        shown: None,
        at: 1,
    },
    Row {
        file: TableFile::Psr4,
        text: b"<?php return 1;",
        shown: None,
        at: 6,
    },
    Row {
        file: TableFile::Psr4,
        text: b"<?php $vend",
        shown: None,
        at: 6,
    },
    Row {
        file: TableFile::Psr4,
        text: b"<?php $vendorDir => 1;",
        shown: None,
        at: 17,
    },
    Row {
        file: TableFile::Psr4,
        text: b"<?php $vendorDir = dirname($vendorDir);",
        shown: None,
        at: 27,
    },
    Row {
        file: TableFile::Psr4,
        text: b"<?php $vendorDir = dirname(dirname(__DIR__));",
        shown: None,
        at: 35,
    },
    Row {
        file: TableFile::Psr4,
        text: b"<?php $vendorDir=dirname(__DIR__);$baseDir=dirname($vendorDir);return array();x",
        shown: None,
        at: 78,
    },
    Row {
        file: TableFile::Psr4,
        text: b"<?php $vendorDir=dirname(__DIR__);$baseDir=dirname($vendorDir);return array();;",
        shown: None,
        at: 78,
    },
    Row {
        file: TableFile::Psr4,
        text: b"<?php $vendorDir=dirname(__DIR__);$baseDir=dirname($vendorDir);return array();?>",
        shown: None,
        at: 78,
    },
    Row {
        file: TableFile::Psr4,
        text: b"<?php $vendorDir=dirname(__DIR__);$baseDir=dirname($vendorDir);return array()",
        shown: None,
        at: 77,
    },
    Row {
        file: TableFile::Psr4,
        text: b"<?php $vendorDir=dirname(__DIR__);$baseDir=dirname($vendorDir);return array(,);",
        shown: None,
        at: 76,
    },
    Row {
        file: TableFile::Psr4,
        text: b"<?php $vendorDir=dirname(__DIR__);$baseDir=dirname($vendorDir);return array('A\\\\'=>array($baseDir.'/a'),,);",
        shown: None,
        at: 104,
    },
    Row {
        file: TableFile::Psr4,
        text: b"<?php $vendorDir=dirname(__DIR__);$baseDir=dirname($vendorDir);return array('A'=>array($baseDir.'/a'));",
        shown: None,
        at: 76,
    },
    Row {
        file: TableFile::Psr4,
        text: b"<?php $vendorDir=dirname(__DIR__);$baseDir=dirname($vendorDir);return array('A\\\\'=>$baseDir.'/a');",
        shown: None,
        at: 83,
    },
    Row {
        file: TableFile::Psr4,
        text: b"<?php $vendorDir=dirname(__DIR__);$baseDir=dirname($vendorDir);return array('A\\\\'=>array($baseDir.'a'));",
        shown: None,
        at: 98,
    },
    Row {
        file: TableFile::Psr4,
        text: b"<?php $vendorDir=dirname(__DIR__);$baseDir=dirname($vendorDir);return array('A\\\\'=>array($vendorDir.''));",
        shown: None,
        at: 100,
    },
    Row {
        file: TableFile::Psr4,
        text: b"<?php $vendorDir=dirname(__DIR__);$baseDir=dirname($vendorDir);return array('A\\\\'=>array($baseDir.'/../../x'));",
        shown: None,
        at: 98,
    },
    Row {
        file: TableFile::Psr4,
        text: b"<?php $vendorDir=dirname(__DIR__);$baseDir=dirname($vendorDir);return array('A\\\\'=>array($baseDir.'/a\0'));",
        shown: None,
        at: 98,
    },
    Row {
        file: TableFile::Psr4,
        text: b"<?php $vendorDir=dirname(__DIR__);$baseDir=dirname($vendorDir);return array('A\\\\'=>array('/opt/abs'));",
        shown: None,
        at: 89,
    },
    Row {
        file: TableFile::Psr4,
        text: b"<?php $vendorDir=dirname(__DIR__);$baseDir=dirname($vendorDir);return array('A\\\\'=>array($baseDir'/a'));",
        shown: None,
        at: 97,
    },
    Row {
        file: TableFile::Psr4,
        text: b"<?php $vendorDir=dirname(__DIR__);$baseDir=dirname($vendorDir);return array('A\\\\=>array($baseDir.",
        shown: None,
        at: 76,
    },
    Row {
        file: TableFile::Psr4,
        text: b"<?php $vendorDir=dirname(__DIR__);$baseDir=dirname($vendorDir);return array(/* never closed );",
        shown: None,
        at: 76,
    },
    Row {
        file: TableFile::Psr4,
        text: b"<?php $vendorDir=dirname(__DIR__);$baseDir=dirname($vendorDir);return array([];",
        shown: None,
        at: 76,
    },
    Row {
        file: TableFile::Psr4,
        text: b"<?php $vendorDir=dirname(__DIR__);$baseDir=dirname($vendorDir);return array(\"A\"=>array());",
        shown: None,
        at: 76,
    },
    Row {
        file: TableFile::Psr4,
        text: b"<?php $vendorDir=dirname(__DIR__);$baseDir=dirname($vendorDir);return array(// to the end of the line\rx",
        shown: None,
        at: 102,
    },
    Row {
        file: TableFile::Psr0,
        text: b"<?php $vendorDir=dirname(__DIR__);$baseDir=dirname($vendorDir);return array('A'=>array($baseDir.'/a') 'B'=>array());",
        shown: None,
        at: 102,
    },
    Row {
        file: TableFile::ClassMap,
        text: b"<?php $vendorDir=dirname(__DIR__);$baseDir=dirname($vendorDir);return array('A'=>array($baseDir.'/a'));",
        shown: None,
        at: 81,
    },
    Row {
        file: TableFile::ClassMap,
        text: b"<?php $vendorDir=dirname(__DIR__);$baseDir=dirname($vendorDir);return array('A'=>'phar://' . $baseDir.'/a');",
        shown: None,
        at: 81,
    },
    Row {
        file: TableFile::Files,
        text: b"<?php $vendorDir=dirname(__DIR__);$baseDir=dirname($vendorDir);return array('A'=>$baseDir,'/a');",
        shown: None,
        at: 89,
    },
    Row {
        file: TableFile::Files,
        text: b"<?php $vendorDir=dirname(__DIR__);$baseDir=dirname(__DIR__);return array();",
        shown: None,
        at: 51,
    },
    Row {
        file: TableFile::State,
        text: b"<?php return array('mode'=>'fast','generation'=>1);",
        shown: None,
        at: 27,
    },
    Row {
        file: TableFile::State,
        text: b"<?php return array('generation'=>1,'mode'=>'plain');",
        shown: None,
        at: 19,
    },
    Row {
        file: TableFile::State,
        text: b"<?php return array('mode'=>'plain','generation'=>18446744073709551616);",
        shown: None,
        at: 49,
    },
    Row {
        file: TableFile::State,
        text: b"<?php return array('mode'=>'plain','generation'=>000000000000000000011);",
        shown: None,
        at: 69,
    },
    Row {
        file: TableFile::State,
        text: b"<?php return array('mode'=>'plain','generation'=>-1);",
        shown: None,
        at: 49,
    },
    Row {
        file: TableFile::State,
        text: b"<?php return array('mode'=>'plain','generation'=>1,,);",
        shown: None,
        at: 51,
    },
    Row {
        file: TableFile::State,
        text: b"<?php return array('mode'=>'plain','generation'=>1)",
        shown: None,
        at: 51,
    },
];

// Written by `composer install --no-interaction --no-plugins` of Composer 2.5.5, in a project with a path
// repository, psr-4, psr-0 and files entries, and `optimize-autoloader`.

static OF_COMPOSER: [Row; 4] = [
    Row {
        file: TableFile::Psr4,
        text: b"<?php\n\n// autoload_psr4.php @generated by Composer\n\n$vendorDir = dirname(__DIR__);\n$baseDir = dirname($vendorDir);\n\nreturn array(\n    'Pkg\\\\' => array($vendorDir . '/acme/pkg/src'),\n    'App\\\\' => array($baseDir . '/src'),\n);\n",
        shown: Some(b"Pkg\\>app/vendor/acme/pkg/src\nApp\\>app/src\n"),
        at: 0,
    },
    Row {
        file: TableFile::Psr0,
        text: b"<?php\n\n// autoload_namespaces.php @generated by Composer\n\n$vendorDir = dirname(__DIR__);\n$baseDir = dirname($vendorDir);\n\nreturn array(\n    'Foo_' => array($baseDir . '/lib'),\n);\n",
        shown: Some(b"Foo_>app/lib\n"),
        at: 0,
    },
    Row {
        file: TableFile::ClassMap,
        text: b"<?php\n\n// autoload_classmap.php @generated by Composer\n\n$vendorDir = dirname(__DIR__);\n$baseDir = dirname($vendorDir);\n\nreturn array(\n    'App\\\\Home' => $baseDir . '/src/Home.php',\n    'Composer\\\\InstalledVersions' => $vendorDir . '/composer/InstalledVersions.php',\n    'Pkg\\\\One' => $vendorDir . '/acme/pkg/src/One.php',\n);\n",
        shown: Some(
            b"App\\Home>app/src/Home.php\nComposer\\InstalledVersions>app/vendor/composer/InstalledVersions.php\nPkg\\One>app/vendor/acme/pkg/src/One.php\n",
        ),
        at: 0,
    },
    Row {
        file: TableFile::Files,
        text: b"<?php\n\n// autoload_files.php @generated by Composer\n\n$vendorDir = dirname(__DIR__);\n$baseDir = dirname($vendorDir);\n\nreturn array(\n    'c45336605f9ebac8dedd8c5b448f39a5' => $vendorDir . '/acme/pkg/boot.php',\n    '7999e065214eabec1b162d74d06b679d' => $baseDir . '/src/Home.php',\n);\n",
        shown: Some(
            b"c45336605f9ebac8dedd8c5b448f39a5>app/vendor/acme/pkg/boot.php\n7999e065214eabec1b162d74d06b679d>app/src/Home.php\n",
        ),
        at: 0,
    },
];

static PRINTED: [Cut; 5] = [
    Cut {
        file: TableFile::Psr4,
        text: b"<?php\n\n// autoload_psr4.php @generated by Composer\n\n$vendorDir = dirname(__DIR__);\n$baseDir = dirname($vendorDir);\n\nreturn array(\n    'App\\\\' => array($baseDir . '/src', $vendorDir . '/a'),\n);\n",
        tokens: &[
            (0, 6),
            (7, 9),
            (52, 62),
            (65, 72),
            (73, 80),
            (83, 91),
            (94, 101),
            (102, 112),
            (116, 122),
            (123, 128),
            (134, 141),
            (142, 144),
            (145, 150),
            (151, 159),
            (162, 168),
            (170, 180),
            (183, 187),
        ],
    },
    Cut {
        file: TableFile::Psr0,
        text: b"<?php\n\n// autoload_namespaces.php @generated by Composer\n\n$vendorDir = dirname(__DIR__);\n$baseDir = dirname($vendorDir);\n\nreturn array(\n    'Foo_' => array($baseDir . '/lib'),\n);\n",
        tokens: &[
            (0, 6),
            (7, 9),
            (58, 68),
            (71, 78),
            (79, 86),
            (89, 97),
            (100, 107),
            (108, 118),
            (122, 128),
            (129, 134),
            (140, 146),
            (147, 149),
            (150, 155),
            (156, 164),
            (167, 173),
        ],
    },
    Cut {
        file: TableFile::ClassMap,
        text: b"<?php\n\n// autoload_classmap.php @generated by Composer\n\n$vendorDir = dirname(__DIR__);\n$baseDir = dirname($vendorDir);\n\nreturn array(\n    'App\\\\It' => $baseDir . '/it\\'s.php',\n);\n",
        tokens: &[
            (0, 6),
            (7, 9),
            (56, 66),
            (69, 76),
            (77, 84),
            (87, 95),
            (98, 105),
            (106, 116),
            (120, 126),
            (127, 132),
            (138, 147),
            (148, 150),
            (151, 159),
            (162, 174),
        ],
    },
    Cut {
        file: TableFile::Files,
        text: b"<?php\n\n// autoload_files.php @generated by Composer\n\n$vendorDir = dirname(__DIR__);\n$baseDir = dirname($vendorDir);\n\nreturn array(\n    'c4' => $vendorDir . '/acme/boot.php',\n);\n",
        tokens: &[
            (0, 6),
            (7, 9),
            (53, 63),
            (66, 73),
            (74, 81),
            (84, 92),
            (95, 102),
            (103, 113),
            (117, 123),
            (124, 129),
            (135, 139),
            (140, 142),
            (143, 153),
            (156, 172),
        ],
    },
    Cut {
        file: TableFile::State,
        text: b"<?php\n\n// autoload_state.php @generated by Composer\n\nreturn array(\n    'mode' => 'plain',\n    'generation' => 12,\n);\n",
        tokens: &[
            (0, 6),
            (7, 9),
            (53, 59),
            (60, 65),
            (71, 77),
            (78, 80),
            (81, 88),
            (94, 106),
            (107, 109),
        ],
    },
];

fn texts_of(alloc: Global, file: TableFile, bytes: &[u8]) -> Result<TableTexts, Fail> {
    let mut texts = TableTexts {
        psr4: None,
        psr0: None,
        class_map: None,
        files: None,
        state: None,
    };
    let text = Some(Text::of(Vec::from_slice(alloc, bytes)?));
    match file {
        TableFile::Psr4 => texts.psr4 = text,
        TableFile::Psr0 => texts.psr0 = text,
        TableFile::ClassMap => texts.class_map = text,
        TableFile::Files => texts.files = text,
        TableFile::State => texts.state = text,
    }
    Ok(texts)
}

fn show_row(out: &mut Vec<u8>, key: &[u8], paths: &[&Path]) -> Result<(), Fail> {
    out.extend_from_slice(key)?;
    for (i, path) in paths.iter().enumerate() {
        out.extend_from_slice(if i == 0 { b">" } else { b"," })?;
        out.extend_from_slice(path.text())?;
    }
    out.push(b'\n')?;
    Ok(())
}

fn show_mode(mode: Mode) -> &'static [u8] {
    match mode {
        Mode::Plain => b"plain",
        Mode::Optimised => b"optimised",
        Mode::Authoritative => b"authoritative",
    }
}

/// The tables as lines: a key, `>` and its paths; a mode and a generation.
fn show(alloc: Global, tables: &Tables) -> Result<Vec<u8>, Fail> {
    let mut out = Vec::new(alloc);
    for rows in [tables.psr4.as_slice(), tables.psr0.as_slice()] {
        for row in rows {
            let mut paths = Vec::new(alloc);
            for folder in row.folders.as_slice() {
                paths.push(folder)?;
            }
            show_row(&mut out, row.prefix.as_slice(), paths.as_slice())?;
        }
    }
    for row in tables.class_map.as_slice() {
        show_row(&mut out, row.class.as_slice(), &[&row.path])?;
    }
    for row in tables.files.as_slice() {
        show_row(&mut out, row.id.as_slice(), &[&row.path])?;
    }
    if let Some(state) = tables.state {
        out.extend_from_slice(show_mode(state.mode))?;
        out.push(b' ')?;
        push_number(&mut out, state.generation)?;
        out.push(b'\n')?;
    }
    Ok(out)
}

fn gives(rt: &impl Abort, alloc: Global, row: &Row) -> Result<(), Fail> {
    let project = Path::read(alloc, b"app")?;
    let texts = texts_of(alloc, row.file, row.text)?;
    match read(alloc, &texts, &project) {
        Ok(tables) => assert_eq!(rt; Some(show(alloc, &tables)?.as_slice()), row.shown),
        Err(fault) => {
            assert_eq!(rt; row.shown, None, "{fault:?}");
            assert_eq!(rt; fault, TableFault::BadTables(row.file, row.at));
        }
    }
    Ok(())
}

#[test]
fn texts(rt: HostRuntime) -> Result<(), Fail> {
    for row in &READ {
        gives(&rt, rt.alloc(), row)?;
    }
    for row in &REFUSED {
        gives(&rt, rt.alloc(), row)?;
    }
    for row in &OF_COMPOSER {
        gives(&rt, rt.alloc(), row)?;
    }
    Ok(())
}

/// Where a front of so many bytes is bad: at the token that it cuts, else at its end.
fn place(tokens: &[(usize, usize)], len: usize) -> usize {
    for (start, end) in tokens {
        if *start < len && len < *end {
            return *start;
        }
    }
    len
}

#[test]
fn fronts(rt: HostRuntime) -> Result<(), Fail> {
    let alloc = rt.alloc();
    let project = Path::root(alloc);
    for cut in &PRINTED {
        let whole = cut.text.len().saturating_sub(1);
        for len in 0..cut.text.len() {
            let texts = texts_of(alloc, cut.file, &cut.text[..len])?;
            let fault = read(alloc, &texts, &project).err();
            if len < whole {
                let at = place(cut.tokens, len) as u64;
                assert_eq!(rt; fault, Some(TableFault::BadTables(cut.file, at)), "{len}");
            } else {
                assert_eq!(rt; fault, None, "{len}");
            }
        }
    }
    Ok(())
}

/// The fault of two texts, each None where there is no such file.
fn fault_of(
    alloc: Global,
    psr0: Option<Text>,
    state: Option<Text>,
) -> Result<Option<TableFault>, Fail> {
    let texts = TableTexts {
        psr4: None,
        psr0,
        class_map: None,
        files: None,
        state,
    };
    let project = Path::root(alloc);
    Ok(read(alloc, &texts, &project).err())
}

fn text(alloc: Global, bytes: &[u8]) -> Result<Option<Text>, Fail> {
    Ok(Some(Text::of(Vec::from_slice(alloc, bytes)?)))
}

#[test]
fn first_file_is_told(rt: HostRuntime) -> Result<(), Fail> {
    let alloc = rt.alloc();
    let fault = fault_of(alloc, text(alloc, b"<?php ")?, text(alloc, b"x")?)?;
    assert_eq!(rt; fault, Some(TableFault::BadTables(TableFile::Psr0, 6)));
    Ok(())
}

#[test]
fn no_text_is_no_fault(rt: HostRuntime) -> Result<(), Fail> {
    assert_eq!(rt; fault_of(rt.alloc(), None, None)?, None);
    Ok(())
}
