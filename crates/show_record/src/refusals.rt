// Each reason of a refusal in words, as docs/NUMBERS.md has them.
use crate::words::Text;
use terms::Reason;

// A reason in words; one for which no record is refused has none.
pub(crate) fn words_of(reason: Reason) -> Option<Text> {
    let text = match reason {
        Reason::ItemMissing => Text(
            "an item is missing: what encloses it, or the input, ends where it must begin",
            "缺少一项：外层结构或输入在该项应当开始之处已经结束",
        ),
        Reason::OtherTag => Text(
            "another item stands there: its tag is not the required one",
            "此处是另外一项：其标签不是所要求的标签",
        ),
        Reason::BadLength => Text(
            "the length is missing, cut off, or not in its one allowed form",
            "长度缺失、被截断，或者不是唯一允许的形式",
        ),
        Reason::PastEnd => Text(
            "the item has more bytes than what encloses it, or the input, has left",
            "该项的字节数超过外层结构或输入所剩余的字节数",
        ),
        Reason::LeftOver => Text("bytes are left after the last item", "最后一项之后还有多余的字节"),
        Reason::BadInteger => Text(
            "an integer is empty, has more than 8 bytes or is not in its shortest form",
            "整数为空、超过8个字节，或者不是最短形式",
        ),
        Reason::NotAllowed => Text(
            "a version that is not 4, a list kind that is not 1 or 2, a width or height that is not 1 to 65,535",
            "版本号不是4，或者证书信息类型不是1或2，或者宽度、高度不在1至65535之间",
        ),
        Reason::NotEs => Text("the header's name is not \"ES\"", "头标识不是“ES”"),
        Reason::BadCharacter => Text(
            "a byte is outside the string's alphabet, or no UTF-8",
            "字符串中有不属于其字符集的字节，或者不是UTF-8编码",
        ),
        Reason::BadTime => Text(
            "a time is not fourteen digits and Z, or no real date and time",
            "时间不是十四位数字加Z，或者不是真实的日期和时间",
        ),
        Reason::BadIdentifier => Text(
            "an identifier is empty, has more than 64 bytes, a part that begins with 80 or a last part that does not end",
            "对象标识符为空、超过64个字节、有以80开头的部分，或者最后一部分没有结束",
        ),
        Reason::BadBits => Text(
            "a bit string is empty, or its first byte is not 00",
            "比特串为空，或者其首字节不是00",
        ),
        Reason::BadBoolean => Text("critical is there and is not FF alone", "是否关键一项存在，但不是单独的FF"),
        Reason::NoBytes => Text("a string that needs a byte has none", "至少需要一个字节的字符串没有字节"),
        Reason::NoItem => Text("the certificate list has no item", "证书信息列表中没有任何一项"),
        Reason::TooManyItems => Text("a list has a 65th item", "列表中有第65项"),
        Reason::TooLarge => Text(
            "the record claims more than 65,535 bytes, header included",
            "记录声明的字节数（含头部）超过65535",
        ),
        Reason::UnrealTime | Reason::BadSheet | Reason::NoRoom => return None,
    };
    Some(text)
}
