// Worked examples of the library, of HTTP texts, of retries and of queues.
ghost use Rattle.wf_value.specs.RowsTexts.{SplitKeepsEmptyParts, EmptySeparatorRaises, ReplacingGoesFromTheLeft, SubstringCountsCharacters, SubstringPastTheEndRaises, FindingCountsCharacters, UrlEncodingEscapesABlank, UrlDecodingKeepsALonePercent, DecodingAsksForUtf8, MapGetFollowsKeys, MissingKeyIsNotDeleted, SecondMapWins, DecimalsAreNotDecoded, Base64IsPadded, UnpaddedBase64Raises, FirstSecond, LastSecond, NoSecondBehindTheLast, SecondDay, ZoneIsTakenOff, LeapDay, GetRequest, GetRequestHas83Bytes, PostRequest, SecureUrlTakesARoute, QueryFollowsTheUrls, EmptyQueryIsAQuery, OtherUrlsAreRefused, OwnFieldsAreRefused, DoubleFieldsAreRefused, JsonUnderAnotherTypeRaises, KindsAreTriedFirst, NullIsNoMapOfFields, UnknownMethodRaises, TimeoutOfNothingRaises, JsonAnswerIsDecoded, EmptyBodyIsNull, BadJsonRaises, ErrorCodeRaises, BadJsonOfAnErrorIsAText, EncodedBodyIsBytes, EqualFieldsAreJoined, EqualLengthsAgree, OtherLengthsDiffer, LengthIsOfDigits, ChunksGoBeforeALength, TwoCodingsAreBad, NotFoundReply, UrlOfAnEndpoint, DelaysGrow, FirstDelayIsNotBounded, PoliciesDecideByCodeAndTag, ArrivalsMayBeRefused};

/// Worked examples of the library, of requests, answers and bodies, of retry policies and of queues. The function does nothing; each
/// of its clauses is an example, and the check carries it out.
pub fn worked_texts()
    ensures split_keeps_empty_parts { SplitKeepsEmptyParts }
    ensures empty_separator_raises { EmptySeparatorRaises }
    ensures replacing_goes_from_the_left { ReplacingGoesFromTheLeft }
    ensures substring_counts_characters { SubstringCountsCharacters }
    ensures substring_past_the_end_raises { SubstringPastTheEndRaises }
    ensures finding_counts_characters { FindingCountsCharacters }
    ensures url_encoding_escapes_a_blank { UrlEncodingEscapesABlank }
    ensures url_decoding_keeps_a_lone_percent { UrlDecodingKeepsALonePercent }
    ensures decoding_asks_for_utf8 { DecodingAsksForUtf8 }
    ensures map_get_follows_keys { MapGetFollowsKeys }
    ensures missing_key_is_not_deleted { MissingKeyIsNotDeleted }
    ensures second_map_wins { SecondMapWins }
    ensures decimals_are_not_decoded { DecimalsAreNotDecoded }
    ensures base64_is_padded { Base64IsPadded }
    ensures unpadded_base64_raises { UnpaddedBase64Raises }
    ensures first_second { FirstSecond }
    ensures last_second { LastSecond }
    ensures no_second_behind_the_last { NoSecondBehindTheLast }
    ensures second_day { SecondDay }
    ensures zone_is_taken_off { ZoneIsTakenOff }
    ensures leap_day { LeapDay }
    ensures get_request { GetRequest }
    ensures get_request_has83_bytes { GetRequestHas83Bytes }
    ensures post_request { PostRequest }
    ensures secure_url_takes_a_route { SecureUrlTakesARoute }
    ensures query_follows_the_urls { QueryFollowsTheUrls }
    ensures empty_query_is_a_query { EmptyQueryIsAQuery }
    ensures other_urls_are_refused { OtherUrlsAreRefused }
    ensures own_fields_are_refused { OwnFieldsAreRefused }
    ensures double_fields_are_refused { DoubleFieldsAreRefused }
    ensures json_under_another_type_raises { JsonUnderAnotherTypeRaises }
    ensures kinds_are_tried_first { KindsAreTriedFirst }
    ensures null_is_no_map_of_fields { NullIsNoMapOfFields }
    ensures unknown_method_raises { UnknownMethodRaises }
    ensures timeout_of_nothing_raises { TimeoutOfNothingRaises }
    ensures json_answer_is_decoded { JsonAnswerIsDecoded }
    ensures empty_body_is_null { EmptyBodyIsNull }
    ensures bad_json_raises { BadJsonRaises }
    ensures error_code_raises { ErrorCodeRaises }
    ensures bad_json_of_an_error_is_a_text { BadJsonOfAnErrorIsAText }
    ensures encoded_body_is_bytes { EncodedBodyIsBytes }
    ensures equal_fields_are_joined { EqualFieldsAreJoined }
    ensures equal_lengths_agree { EqualLengthsAgree }
    ensures other_lengths_differ { OtherLengthsDiffer }
    ensures length_is_of_digits { LengthIsOfDigits }
    ensures chunks_go_before_a_length { ChunksGoBeforeALength }
    ensures two_codings_are_bad { TwoCodingsAreBad }
    ensures not_found_reply { NotFoundReply }
    ensures url_of_an_endpoint { UrlOfAnEndpoint }
    ensures delays_grow { DelaysGrow }
    ensures first_delay_is_not_bounded { FirstDelayIsNotBounded }
    ensures policies_decide_by_code_and_tag { PoliciesDecideByCodeAndTag }
    ensures arrivals_may_be_refused { ArrivalsMayBeRefused }
{}
