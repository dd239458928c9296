use super::*;
use json_ordered::read;
use std::test::*;

// A composer.json, and its hashed text.
const HASHED: [[&[u8]; 2]; 5] = [
    [
        b"{\"require\":{\"a/b\":\"^1.0\"},\"name\":\"x/y\"}",
        b"{\"name\":\"x\\/y\",\"require\":{\"a\\/b\":\"^1.0\"}}",
    ],
    [
        b"{\"extra\":{\"a\":{},\"b\":{\"0\":1,\"1\":2},\"a\":3}}",
        b"{\"extra\":{\"a\":3,\"b\":[1,2]}}",
    ],
    [
        b"{\"extra\":{\"e\":{},\"u\":\"\xc3\xa9/\"}}",
        b"{\"extra\":{\"e\":[],\"u\":\"\\u00e9\\/\"}}",
    ],
    [
        b"{\"config\":{\"platform\":{\"php\":\"8\"},\"a\":1},\"name\":\"x/y\"}",
        b"{\"config\":{\"platform\":{\"php\":\"8\"}},\"name\":\"x\\/y\"}",
    ],
    [b"[1]", b"[]"],
];

// A composer.json, and the content hash that Composer 2.5.5 gives for it. Printed by vectors/content_hashes.php.
const MANIFESTS: [[&[u8]; 2]; 11] = [
    [b"{}", b"d751713988987e9331980363e24189ce"],
    [b"{\"name\":\"x/y\"}", b"f0f3c385aa0543ca7bb9239c148d4c15"],
    [
        b"{\"require\":{\"a/b\":\"^1.0\"},\"name\":\"x/y\"}",
        b"2a23fc71aa13224108370c581319fe2a",
    ],
    [
        b"{\"name\":\"shop/site\",\"require\":{\"php\":\">=8.1\",\"acme/log\":\"^1.2\"},\"repositories\":[{\"type\":\"path\",\"url\":\"packages/*\"}],\"autoload\":{\"psr-4\":{\"App\\\\\":\"src/\"}}}",
        b"1746a5ec45902df2685796beaa72fab9",
    ],
    [
        b"{\"extra\":{\"a\":{},\"b\":{\"0\":1,\"1\":2},\"a\":3}}",
        b"c41697df0a8feb88f8cc079ae54cc3a8",
    ],
    [
        b"{\"extra\":{\"e\":{},\"u\":\"\xc3\xa9/\xf0\x9f\x98\x80\\u007f\"}}",
        b"70ab15f0176ad2cacc71c1de4a19b371",
    ],
    [
        b"{\"config\":{\"vendor-dir\":\"vendor\",\"platform\":{\"php\":\"8.1.2\"}},\"require-dev\":{\"c/d\":\"*\"}}",
        b"5e1d10521606ba04f9a80146a8038b05",
    ],
    [
        b"{\"config\":{\"platform\":null},\"version\":\"1.2.3\",\"minimum-stability\":\"dev\",\"prefer-stable\":true}",
        b"2c42a8cff6e0c4e69457823afbdb4e97",
    ],
    [
        b"{\"config\":{\"platform\":{}},\"conflict\":{\"a/b\":\"<2\"},\"provide\":{\"p/q\":\"1\"},\"replace\":{\"r/s\":\"self.version\"}}",
        b"c61ec363dd99510e8b55265239705a30",
    ],
    [
        b"{\"name\":null,\"description\":\"a\",\"type\":\"library\",\"repositories\":{\"0\":{\"packagist.org\":false},\"1\":{\"type\":\"path\",\"url\":\"../x\"}}}",
        b"18f4ed79825b86656ecbe6878890046f",
    ],
    [
        b"{\"version\":\"1.0\",\"name\":\"z/z\",\"extra\":[1,[2,{\"b\":1,\"a\":[]}]],\"authors\":[],\"config\":[]}",
        b"15ecdad0be5baea1522f5db044bc3870",
    ],
];

// The test suite of RFC 1321.
const TEXTS: [[&[u8]; 2]; 7] = [
    [b"", b"d41d8cd98f00b204e9800998ecf8427e"],
    [b"a", b"0cc175b9c0f1b6a831c399e269772661"],
    [b"abc", b"900150983cd24fb0d6963f7d28e17f72"],
    [b"message digest", b"f96b697d7cb7938d525a2f31aaf161d0"],
    [
        b"abcdefghijklmnopqrstuvwxyz",
        b"c3fcd3d76192e4007dfb496cca67e13b",
    ],
    [
        b"ABCDEFGHIJKLMNOPQRSTUVWXYZabcdefghijklmnopqrstuvwxyz0123456789",
        b"d174ab98d277d9f5a5611c2c9f419d9f",
    ],
    [
        b"12345678901234567890123456789012345678901234567890123456789012345678901234567890",
        b"57edf4a22be3c955ac49da2e2107b67a",
    ],
];

#[test]
fn hashes(rt: HostRuntime) -> Result<(), Fail> {
    for row in &HASHED {
        let doc = read(rt.alloc(), row[0]).ok().ok_or("no value")?;
        let text = hashed_text(rt.alloc(), &doc)?;
        assert_eq!(rt; text.as_slice(), row[1]);
    }
    for row in &MANIFESTS {
        let doc = read(rt.alloc(), row[0]).ok().ok_or("no value")?;
        let hash = content_hash(rt.alloc(), &doc)?;
        assert_eq!(rt; hash.as_slice(), row[1]);
    }
    for row in &TEXTS {
        let id = text_id(row[0]);
        assert_eq!(rt; id.as_slice(), row[1]);
    }
    Ok(())
}
